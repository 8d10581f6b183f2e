use date_spec::{GREATEST_INSTANT, LEAST_INSTANT};
use date_text::{DateFault, print, read};
use std::alloc::Global;
use std::test::Fail;

/// Texts and what they read as, with values from outside.
static TEXTS: [(&str, Result<i64, DateFault>); 135] = [
    ("2024", Ok(1_704_067_200_000)),
    ("1970", Ok(0)),
    ("0000", Ok(-62_167_219_200_000)),
    ("9999", Ok(253_370_764_800_000)),
    ("2024-02", Ok(1_706_745_600_000)),
    ("2024-12", Ok(1_733_011_200_000)),
    ("2024-02-29", Ok(1_709_164_800_000)),
    ("0000-01-01", Ok(-62_167_219_200_000)),
    ("1969-12-31", Ok(-86_400_000)),
    ("9999-12-30", Ok(253_402_128_000_000)),
    ("9999-12-31", Err(DateFault::OutOfRange)),
    ("0000-12-31", Ok(-62_135_683_200_000)),
    ("2024-02-29T23:59", Ok(1_709_251_140_000)),
    ("2024-02-29T23:59:59", Ok(1_709_251_199_000)),
    ("2024-02-29T00:00:00.0", Ok(1_709_164_800_000)),
    ("2024-02-29T23:59:59.9", Ok(1_709_251_199_900)),
    ("2024-02-29T23:59:59.99", Ok(1_709_251_199_990)),
    ("2024-02-29T23:59:59.999", Ok(1_709_251_199_999)),
    ("2024-02-29T23:59:59.9999", Ok(1_709_251_199_999)),
    ("2024-02-29T23:59:59.12345", Ok(1_709_251_199_123)),
    ("2024-02-29T23:59:59.123456", Ok(1_709_251_199_123)),
    ("2024-02-29T23:59:59.1234567", Ok(1_709_251_199_123)),
    ("2024-02-29T23:59:59.12345678", Ok(1_709_251_199_123)),
    ("2024-02-29T23:59:59.999999999", Ok(1_709_251_199_999)),
    ("2024-02-29T23:59:59.999Z", Ok(1_709_251_199_999)),
    ("2024-02-29T23:59:59.999+02:00", Ok(1_709_243_999_999)),
    ("2024-02-29T23:59:59.999-02:00", Ok(1_709_258_399_999)),
    ("2024-02-29T23:59:59+0230", Ok(1_709_242_199_000)),
    ("2024-02-29T23:59-0230", Ok(1_709_260_140_000)),
    ("2024-02-29T23:59+02", Ok(1_709_243_940_000)),
    ("2024-02-29T23:59:59-02", Ok(1_709_258_399_000)),
    ("2024-02-29T23:59+00:00", Ok(1_709_251_140_000)),
    ("2024-02-29T23:59-00:00", Ok(1_709_251_140_000)),
    ("2024-02-29T00:00+18:00", Ok(1_709_100_000_000)),
    ("2024-02-29T00:00-18:00", Ok(1_709_229_600_000)),
    ("2024-02-29T23:59Z", Ok(1_709_251_140_000)),
    ("2024-02-29T23:59:59.1Z", Ok(1_709_251_199_100)),
    ("00000", Ok(0)),
    ("12345", Ok(12_345)),
    ("-12345", Ok(-12_345)),
    ("-00001", Ok(-1)),
    ("1709251199999", Ok(1_709_251_199_999)),
    ("-62167219200000", Ok(-62_167_219_200_000)),
    ("-62167219200001", Err(DateFault::OutOfRange)),
    ("253402214399999", Ok(253_402_214_399_999)),
    ("253402214400000", Err(DateFault::OutOfRange)),
    ("9223372036854775807", Err(DateFault::OutOfRange)),
    ("9223372036854775808", Err(DateFault::OutOfRange)),
    ("9999999999999999999", Err(DateFault::OutOfRange)),
    ("-9999999999999999999", Err(DateFault::OutOfRange)),
    ("0000000000000000001", Ok(1)),
    ("0000-01-01T00:00:00.000Z", Ok(-62_167_219_200_000)),
    ("0000-01-01T00:00:00+00:01", Err(DateFault::OutOfRange)),
    ("0000-01-01T00:00:00.001+00:01", Err(DateFault::OutOfRange)),
    ("0000-01-01T00:00-18", Ok(-62_167_154_400_000)),
    ("9999-12-30T23:59:59.999Z", Ok(253_402_214_399_999)),
    ("9999-12-31T00:00Z", Err(DateFault::OutOfRange)),
    ("9999-12-31T00:00+00:01", Ok(253_402_214_340_000)),
    ("9999-12-31T17:59:59.999+18:00", Ok(253_402_214_399_999)),
    ("9999-12-30T23:59:59.999-00:01", Err(DateFault::OutOfRange)),
    ("2024-02-30", Err(DateFault::Malformed)),
    ("2023-02-29", Err(DateFault::Malformed)),
    ("1900-02-29", Err(DateFault::Malformed)),
    ("2000-02-29", Ok(951_782_400_000)),
    ("2100-02-29", Err(DateFault::Malformed)),
    ("2400-02-29", Ok(13_574_563_200_000)),
    ("2024-04-31", Err(DateFault::Malformed)),
    ("2024-01-32", Err(DateFault::Malformed)),
    ("2024-00", Err(DateFault::Malformed)),
    ("2024-13", Err(DateFault::Malformed)),
    ("2024-01-00", Err(DateFault::Malformed)),
    ("2024-00-01", Err(DateFault::Malformed)),
    ("2024-12-31", Ok(1_735_603_200_000)),
    ("2024-02-29T24:00", Err(DateFault::Malformed)),
    ("2024-02-29T23:60", Err(DateFault::Malformed)),
    ("2024-02-29T23:59:60", Err(DateFault::Malformed)),
    ("2024-02-29T23:59:59.", Err(DateFault::Malformed)),
    ("2024-02-29T23:59:59.1234567890", Err(DateFault::Malformed)),
    ("2024-02-29T23", Err(DateFault::Malformed)),
    ("2024-02-29T", Err(DateFault::Malformed)),
    ("2024-02-29T23:5", Err(DateFault::Malformed)),
    ("2024-02-29T23:59:5", Err(DateFault::Malformed)),
    ("2024-02-29T2:59", Err(DateFault::Malformed)),
    ("2024-02-29T23:59.5", Err(DateFault::Malformed)),
    ("2024-02-29 23:59", Err(DateFault::Malformed)),
    ("2024-02-29t23:59", Err(DateFault::Malformed)),
    ("2024-02-29T23:59:59,5", Err(DateFault::Malformed)),
    ("2024-02-29T23:59+18:01", Err(DateFault::Malformed)),
    ("2024-02-29T23:59-18:01", Err(DateFault::Malformed)),
    ("2024-02-29T23:59+19", Err(DateFault::Malformed)),
    ("2024-02-29T23:59+2", Err(DateFault::Malformed)),
    ("2024-02-29T23:59+02:0", Err(DateFault::Malformed)),
    ("2024-02-29T23:59+02:60", Err(DateFault::Malformed)),
    ("2024-02-29T23:59+020", Err(DateFault::Malformed)),
    ("2024-02-29T23:59+02:000", Err(DateFault::Malformed)),
    ("2024-02-29T23:59+", Err(DateFault::Malformed)),
    ("2024-02-29T23:59z", Err(DateFault::Malformed)),
    ("2024-02-29T23:59ZZ", Err(DateFault::Malformed)),
    ("2024-02-29T23:59Z ", Err(DateFault::Malformed)),
    ("2024-02-29Z", Err(DateFault::Malformed)),
    ("2024-02-29+01:00", Err(DateFault::Malformed)),
    ("2024-02Z", Err(DateFault::Malformed)),
    ("2024Z", Err(DateFault::Malformed)),
    ("2024-02-29TZ", Err(DateFault::Malformed)),
    ("", Err(DateFault::Malformed)),
    (" ", Err(DateFault::Malformed)),
    ("2024 ", Err(DateFault::Malformed)),
    (" 2024", Err(DateFault::Malformed)),
    ("+2024", Err(DateFault::Malformed)),
    ("-2024", Err(DateFault::Malformed)),
    ("02024-01-01", Err(DateFault::Malformed)),
    ("-0001-01-01", Err(DateFault::Malformed)),
    ("+2024-01-01", Err(DateFault::Malformed)),
    ("2024-1-01", Err(DateFault::Malformed)),
    ("2024-01-1", Err(DateFault::Malformed)),
    ("24-01-01", Err(DateFault::Malformed)),
    ("2024-", Err(DateFault::Malformed)),
    ("2024-02-", Err(DateFault::Malformed)),
    ("20240229", Ok(20_240_229)),
    ("2024/02/29", Err(DateFault::Malformed)),
    ("1", Err(DateFault::Malformed)),
    ("1234", Ok(-23_225_875_200_000)),
    ("-1234", Err(DateFault::Malformed)),
    ("12345678901234567890", Err(DateFault::Malformed)),
    ("-12345678901234567890", Err(DateFault::Malformed)),
    ("+12345", Err(DateFault::Malformed)),
    ("--12345", Err(DateFault::Malformed)),
    ("12345-", Err(DateFault::Malformed)),
    ("-", Err(DateFault::Malformed)),
    ("1e12345", Err(DateFault::Malformed)),
    ("12345.6", Err(DateFault::Malformed)),
    ("2024-02-29T23:59:59.999Z0", Err(DateFault::Malformed)),
    ("2024-W09-4", Err(DateFault::Malformed)),
    ("2024-060", Err(DateFault::Malformed)),
    ("now", Err(DateFault::Malformed)),
];

#[test]
fn texts_read_as_the_definitions_say(rt: HostRuntime) {
    for (text, instant) in &TEXTS {
        assert_eq!(rt; read(text), *instant, "{text}");
    }
}

/// Instants, what stands for the offset, and what they print as, with values from outside.
static PRINTED: [(i64, &str, &str); 16] = [
    (-62_167_219_200_000, "Z", "0000-01-01T00:00:00.000Z"),
    (253_402_214_399_999, "Z", "9999-12-30T23:59:59.999Z"),
    (0, "Z", "1970-01-01T00:00:00.000Z"),
    (-1, "Z", "1969-12-31T23:59:59.999Z"),
    (-86_400_000, "Z", "1969-12-31T00:00:00.000Z"),
    (-86_400_001, "Z", "1969-12-30T23:59:59.999Z"),
    (-62_135_683_200_001, "Z", "0000-12-30T23:59:59.999Z"),
    (-2_203_891_200_001, "Z", "1900-02-28T23:59:59.999Z"),
    (-2_203_891_200_000, "Z", "1900-03-01T00:00:00.000Z"),
    (951_782_400_000, "Z", "2000-02-29T00:00:00.000Z"),
    (1_709_164_799_999, "Z", "2024-02-28T23:59:59.999Z"),
    (1_709_251_199_999, "Z", "2024-02-29T23:59:59.999Z"),
    (1_709_254_861_001, "Z", "2024-03-01T01:01:01.001Z"),
    (1_706_745_600_000, "+01:00", "2024-02-01T00:00:00.000+01:00"),
    (1_706_731_200_045, "-03:00", "2024-01-31T20:00:00.045-03:00"),
    (1_704_067_200_000, "", "2024-01-01T00:00:00.000"),
];

/// The text of an instant in range.
fn printed(alloc: Global, instant: i64, offset: &str) -> Result<String, Fail> {
    if instant < LEAST_INSTANT || instant > GREATEST_INSTANT {
        return Err(Fail::new("an instant out of range"));
    }
    Ok(print(alloc, instant, offset)?)
}

#[test]
fn instants_print_as_the_definitions_say(rt: HostRuntime) -> Result<(), Fail> {
    for (instant, offset, text) in &PRINTED {
        let printed = printed(rt.alloc(), *instant, offset)?;
        assert_eq!(rt; printed.as_str(), *text);
    }
    Ok(())
}

/// Offsets, and the milliseconds by which their clocks are ahead of UTC.
static OFFSETS: [(&str, i64); 6] = [
    ("Z", 0),
    ("+01:00", 3_600_000),
    ("-03:00", -10_800_000),
    ("+0530", 19_800_000),
    ("-18", -64_800_000),
    ("+18:00", 64_800_000),
];

/// Whether what clocks with these offsets show at an instant is printed, and read as the instant.
fn is_read_back(alloc: Global, instant: i64) -> Result<bool, Fail> {
    for (offset, ahead) in &OFFSETS {
        let text = printed(alloc, instant.saturating_add(*ahead), offset)?;
        if read(text.as_str()) != Ok(instant) {
            return Ok(false);
        }
    }
    Ok(true)
}

#[test]
fn what_is_printed_reads_as_the_instant(rt: HostRuntime) -> Result<(), Fail> {
    for instant in [
        -62_167_154_400_000,
        -2_203_891_200_001,
        -86_400_001,
        -1,
        0,
        951_782_400_000,
        1_709_251_199_999,
        253_402_149_599_999,
    ] {
        assert!(rt; is_read_back(rt.alloc(), instant)?, "{instant}");
    }
    Ok(())
}
