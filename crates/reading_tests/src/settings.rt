//! Words of the command line and settings lines, read or refused.
use agg_model::{Generate, Limits, Settings, Text};
use agg_settings::{ChangeFault, SettingsFault, byte_size, change, is_settings_line, settings_of};
use json_walk::reading;
use std::alloc::{AllocError, Global};
use std::process::Abort;
use std::test::Fail;

const LIMITS: Limits = Limits {
    request: 644_245_094,
    fielddata: 429_496_729,
    inflight: 1_073_741_824,
    parent: 751_619_276,
};

const PLAIN: Settings = Settings {
    workers: 1,
    batch: 512,
    width: 1,
    limits: LIMITS,
    heap: 1_073_741_824,
    max_buckets: 65_536,
    scan: false,
    generate: None,
};

/// The words of a line, which stand between spaces.
fn words(alloc: Global, line: &str) -> Result<Vec<Text>, AllocError> {
    let mut words = Vec::new(alloc);
    for word in line.split_whitespace() {
        words.push(Text::of(alloc, word)?)?;
    }
    Ok(words)
}

/// What the words of a line give, where several workers and searches are in the grammar or not.
fn read(alloc: Global, line: &str, several: bool) -> Result<Settings, SettingsFault> {
    let words = words(alloc, line)?;
    settings_of(alloc, words.as_slice(), several)
}

fn is_usage(read: Result<Settings, SettingsFault>, key: &str, value: &str) -> bool {
    match read {
        Err(SettingsFault::Usage(usage)) => {
            usage.key.as_str() == key && usage.value.as_str() == value
        }
        _ => false,
    }
}

/// Asserts that the words of each line give its settings.
fn expect_settings(rt: &impl Abort, alloc: Global, rows: &[(&str, Settings)]) {
    for &(line, wanted) in rows {
        let found = read(alloc, line, true);
        assert!(rt; found == Ok(wanted), "{line}");
    }
}

/// Asserts that the words of each line are refused with its key and value.
fn expect_usage(rt: &impl Abort, alloc: Global, several: bool, rows: &[(&str, &str, &str)]) {
    for &(line, key, value) in rows {
        let found = read(alloc, line, several);
        assert!(rt; is_usage(found, key, value), "{line}");
    }
}

#[test]
fn words_give_settings(rt: HostRuntime) {
    let all = Limits {
        request: 1,
        fielddata: 2_048,
        inflight: 0,
        parent: 1_125_899_906_842_624,
    };
    let of_100 = Limits {
        request: 7,
        fielddata: 40,
        inflight: 100,
        parent: 70,
    };
    let generate = Generate {
        number: 18_446_744_073_709_551_615,
        documents: 100_000,
        shards: 64,
    };
    let rows = &[
        ("", PLAIN),
        ("--", PLAIN),
        (
            "--workers 007",
            Settings {
                workers: 7,
                ..PLAIN
            },
        ),
        (
            "--concurrent-searches=64 --workers=64",
            Settings {
                workers: 64,
                width: 64,
                ..PLAIN
            },
        ),
        ("--batched-reduce-size 2", Settings { batch: 2, ..PLAIN }),
        (
            "--scan",
            Settings {
                scan: true,
                ..PLAIN
            },
        ),
        (
            "--generate 18446744073709551615:100000:64",
            Settings {
                generate: Some(generate),
                ..PLAIN
            },
        ),
        (
            "-E indices.breaker.request.limit=1b -E indices.breaker.fielddata.limit=2KB \
             -E network.breaker.inflight_requests.limit=0 -E indices.breaker.total.limit=1pB",
            Settings {
                limits: all,
                ..PLAIN
            },
        ),
        (
            "-Eindices.breaker.request.limit=007% -E=heap_size=1gb -E heap_size=100b",
            Settings {
                limits: of_100,
                heap: 100,
                ..PLAIN
            },
        ),
        (
            "-E search.max_buckets=1 -E search.max_buckets=1000000",
            Settings {
                max_buckets: 1_000_000,
                ..PLAIN
            },
        ),
        ("-E indices.breaker.total.use_real_memory=false", PLAIN),
    ];
    expect_settings(&rt, rt.alloc(), rows);
}

#[test]
fn words_outside_the_grammar_are_refused(rt: HostRuntime) {
    let rows = &[
        ("x", "", ""),
        ("-- x", "", ""),
        ("--help", "", ""),
        ("--workers", "", ""),
        ("--workers -1", "", ""),
        ("--workers 1 --workers 1", "", ""),
        ("--scan --scan", "", ""),
        ("--scan=x", "", ""),
        ("-E --scan", "", ""),
        ("--request-cache=8", "", ""),
        ("--workers=", "--workers", ""),
        ("--workers 0", "--workers", "0"),
        ("--workers 65", "--workers", "65"),
        ("--workers +1", "--workers", "+1"),
        (
            "--workers 000000000000000000001",
            "--workers",
            "000000000000000000001",
        ),
        ("--batched-reduce-size 1", "--batched-reduce-size", "1"),
        (
            "--batched-reduce-size 1025",
            "--batched-reduce-size",
            "1025",
        ),
        ("--concurrent-searches 65", "--concurrent-searches", "65"),
        ("-E=", "", ""),
        ("-E x=y=z", "x", "y=z"),
        ("-E heap_size", "heap_size", ""),
        ("-E heap_size=0b", "heap_size", "0b"),
        ("-E heap_size=50%", "heap_size", "50%"),
        ("-E heap_size=1025tb", "heap_size", "1025tb"),
        ("-E heap_size=0 -E heap_size=1gb", "heap_size", "0"),
        (
            "-E indices.breaker.total.limit=00",
            "indices.breaker.total.limit",
            "00",
        ),
        (
            "-E indices.breaker.total.limit=101%",
            "indices.breaker.total.limit",
            "101%",
        ),
        (
            "-E indices.breaker.total.limit=1",
            "indices.breaker.total.limit",
            "1",
        ),
        ("-E search.max_buckets=0", "search.max_buckets", "0"),
        (
            "-E indices.breaker.total.use_real_memory=true",
            "indices.breaker.total.use_real_memory",
            "true",
        ),
        ("--generate 1:2", "--generate", "1:2"),
        ("--generate 1:100001:1", "--generate", "1:100001:1"),
        (
            "--generate 18446744073709551616:1:1",
            "--generate",
            "18446744073709551616:1:1",
        ),
        ("--generate x -E x=1 --workers x", "--workers", "x"),
        (
            "--generate x --scan --concurrent-searches 2 -E x=1",
            "x",
            "1",
        ),
        ("--generate x --scan --concurrent-searches 2", "--scan", ""),
    ];
    expect_usage(&rt, rt.alloc(), true, rows);
}

#[test]
fn one_worker_and_one_search_where_no_more_are_answered(rt: HostRuntime) {
    let rows = &[
        ("--workers 2", "--workers", "2"),
        ("--concurrent-searches 2", "--concurrent-searches", "2"),
        (
            "--scan --concurrent-searches 2",
            "--concurrent-searches",
            "2",
        ),
    ];
    expect_usage(&rt, rt.alloc(), false, rows);
}

#[test]
fn a_limit_is_in_bytes_or_a_share_of_the_heap(rt: HostRuntime) {
    assert!(rt; byte_size(b"007%", 1_999) == Some(139));
    assert!(rt; byte_size(b"3Mb", 1_999) == Some(3_145_728));
    assert!(rt; byte_size(b"00", 1_999) == None);
}

const IN_FORCE: Settings = Settings {
    workers: 1,
    batch: 2,
    width: 1,
    limits: Limits {
        request: 1,
        fielddata: 2,
        inflight: 3,
        parent: 4,
    },
    heap: 1_073_741_824,
    max_buckets: 5,
    scan: false,
    generate: None,
};

/// What a settings line makes of `IN_FORCE`, where the words gave `PLAIN`.
fn changed(alloc: Global, line: &str) -> Result<Result<Settings, ChangeFault>, Fail> {
    match reading(alloc, line.as_bytes())? {
        Some(line) if is_settings_line(&line) => Ok(change(alloc, &IN_FORCE, &PLAIN, &line)),
        _ => Err(Fail::new("no settings line")),
    }
}

/// Asserts that each settings line gives these settings.
fn expect_changed(rt: &impl Abort, alloc: Global, rows: &[(&str, Settings)]) -> Result<(), Fail> {
    for &(line, wanted) in rows {
        assert!(rt; changed(alloc, line)? == Ok(wanted), "{line}");
    }
    Ok(())
}

#[test]
fn a_settings_line_changes_what_it_names(rt: HostRuntime) -> Result<(), Fail> {
    let limits = IN_FORCE.limits;
    let rows = &[
        (r#"{"persistent":{}}"#, IN_FORCE),
        (
            r#"{"persistent":{"indices.breaker.request.limit":"4866b"}}"#,
            Settings {
                limits: Limits {
                    request: 4_866,
                    ..limits
                },
                ..IN_FORCE
            },
        ),
        (
            r#"{"transient":{"indices.breaker.fielddata.limit":"18b"}}"#,
            Settings {
                limits: Limits {
                    fielddata: 18,
                    ..limits
                },
                ..IN_FORCE
            },
        ),
        (
            r#"{"transient":{"indices.breaker.total.limit":"50%","network.breaker.inflight_requests.limit":null}}"#,
            Settings {
                limits: Limits {
                    inflight: 1_073_741_824,
                    parent: 536_870_912,
                    ..limits
                },
                ..IN_FORCE
            },
        ),
        (
            r#"{"persistent":{"batched_reduce_size":"0003","search.max_buckets":1000000}}"#,
            Settings {
                batch: 3,
                max_buckets: 1_000_000,
                ..IN_FORCE
            },
        ),
        (
            r#"{"persistent":{"batched_reduce_size":null,"search.max_buckets":null}}"#,
            Settings {
                batch: 512,
                max_buckets: 65_536,
                ..IN_FORCE
            },
        ),
    ];
    expect_changed(&rt, rt.alloc(), rows)
}

/// Whether a settings line is refused with this name.
fn is_refused(alloc: Global, line: &str, wanted: &str) -> Result<bool, Fail> {
    match changed(alloc, line)? {
        Err(ChangeFault::Refused { key }) => Ok(key.as_str() == wanted),
        _ => Ok(false),
    }
}

/// Asserts that each settings line is refused with its name.
fn expect_refused(rt: &impl Abort, alloc: Global, rows: &[(&str, &str)]) -> Result<(), Fail> {
    for &(line, wanted) in rows {
        assert!(rt; is_refused(alloc, line, wanted)?, "{line}");
    }
    Ok(())
}

#[test]
fn a_settings_line_is_refused_with_its_first_bad_name(rt: HostRuntime) -> Result<(), Fail> {
    let rows = &[
        (r#"{"persistent":5}"#, "persistent"),
        (r#"{"transient":null}"#, "transient"),
        (r#"{"persistent":{"x":1}}"#, "x"),
        (r#"{"persistent":{"heap_size":"1gb"}}"#, "heap_size"),
        (
            r#"{"persistent":{"indices.breaker.total.limit":"x","b":1}}"#,
            "b",
        ),
        (
            r#"{"persistent":{"indices.breaker.total.limit":5}}"#,
            "indices.breaker.total.limit",
        ),
        (
            r#"{"persistent":{"batched_reduce_size":1}}"#,
            "batched_reduce_size",
        ),
        (
            r#"{"persistent":{"search.max_buckets":"-1"}}"#,
            "search.max_buckets",
        ),
        (
            r#"{"persistent":{"search.max_buckets":1.5}}"#,
            "search.max_buckets",
        ),
    ];
    expect_refused(&rt, rt.alloc(), rows)
}

/// Whether a JSON text is a settings line.
fn is_line(alloc: Global, text: &str) -> Result<bool, Fail> {
    match reading(alloc, text.as_bytes())? {
        Some(value) => Ok(is_settings_line(&value)),
        None => Err(Fail::new("no JSON")),
    }
}

#[test]
fn a_header_is_no_settings_line(rt: HostRuntime) -> Result<(), Fail> {
    for line in [
        "{}",
        r#"{"persistent":{},"x":1}"#,
        r#"{"index":"i"}"#,
        r#"["persistent"]"#,
    ] {
        assert!(rt; !is_line(rt.alloc(), line)?, "{line}");
    }
    Ok(())
}
