//! Bodies with date histograms, read or refused.
ghost use Rattle.agg_model.specs.MappingOrder.{IsOrdered};

use crate::bodies::{mapping, read};
use agg_model::{Agg, Kind, Mapping};
use agg_reading::RequestFault;
use date_spec::Period;
use date_spec::Period::{Fixed, Month, Quarter, Week, Year};
use std::alloc::Global;
use std::test::Fail;

const DAY: Period = Fixed(86_400_000);

/// What stands in a date histogram beside its field, and the period and zone that are read, or the number of the refusal
/// and where in the date histogram it points.
static ROWS: [(&str, Result<(Period, i64), (u16, &str)>); 134] = [
    // Periods of the calendar by both names, and what is none.
    (r#""calendar_interval":"minute""#, Ok((Fixed(60_000), 0))),
    (r#""calendar_interval":"1m""#, Ok((Fixed(60_000), 0))),
    (r#""calendar_interval":"hour""#, Ok((Fixed(3_600_000), 0))),
    (r#""calendar_interval":"1h""#, Ok((Fixed(3_600_000), 0))),
    (r#""calendar_interval":"day""#, Ok((DAY, 0))),
    (r#""calendar_interval":"1d""#, Ok((DAY, 0))),
    (r#""calendar_interval":"week""#, Ok((Week, 0))),
    (r#""calendar_interval":"1w""#, Ok((Week, 0))),
    (r#""calendar_interval":"month""#, Ok((Month, 0))),
    (r#""calendar_interval":"1M""#, Ok((Month, 0))),
    (r#""calendar_interval":"quarter""#, Ok((Quarter, 0))),
    (r#""calendar_interval":"1q""#, Ok((Quarter, 0))),
    (r#""calendar_interval":"year""#, Ok((Year, 0))),
    (r#""calendar_interval":"1y""#, Ok((Year, 0))),
    (
        r#""calendar_interval":"second""#,
        Err((104, "/calendar_interval")),
    ),
    (
        r#""calendar_interval":"1s""#,
        Err((104, "/calendar_interval")),
    ),
    (
        r#""calendar_interval":"2d""#,
        Err((104, "/calendar_interval")),
    ),
    (
        r#""calendar_interval":"Day""#,
        Err((104, "/calendar_interval")),
    ),
    (
        r#""calendar_interval":"1Y""#,
        Err((104, "/calendar_interval")),
    ),
    (
        r#""calendar_interval":"day ""#,
        Err((104, "/calendar_interval")),
    ),
    (
        r#""calendar_interval":"""#,
        Err((104, "/calendar_interval")),
    ),
    (r#""calendar_interval":1"#, Err((103, "/calendar_interval"))),
    (
        r#""calendar_interval":null"#,
        Err((103, "/calendar_interval")),
    ),
    (
        r#""calendar_interval":["day"]"#,
        Err((103, "/calendar_interval")),
    ),
    // Fixed intervals of each unit, and what is none.
    (r#""fixed_interval":"1ms""#, Ok((Fixed(1), 0))),
    (r#""fixed_interval":"1s""#, Ok((Fixed(1000), 0))),
    (r#""fixed_interval":"1m""#, Ok((Fixed(60_000), 0))),
    (r#""fixed_interval":"1h""#, Ok((Fixed(3_600_000), 0))),
    (r#""fixed_interval":"1d""#, Ok((DAY, 0))),
    (r#""fixed_interval":"90m""#, Ok((Fixed(5_400_000), 0))),
    (
        r#""fixed_interval":"2147483647ms""#,
        Ok((Fixed(2_147_483_647), 0)),
    ),
    (
        r#""fixed_interval":"2147483647d""#,
        Ok((Fixed(185_542_587_100_800_000), 0)),
    ),
    (
        r#""fixed_interval":"2147483648ms""#,
        Err((104, "/fixed_interval")),
    ),
    (
        r#""fixed_interval":"18446744073709551617d""#,
        Err((104, "/fixed_interval")),
    ),
    (r#""fixed_interval":"0d""#, Err((104, "/fixed_interval"))),
    (r#""fixed_interval":"01d""#, Err((104, "/fixed_interval"))),
    (r#""fixed_interval":"1w""#, Err((104, "/fixed_interval"))),
    (r#""fixed_interval":"1M""#, Err((104, "/fixed_interval"))),
    (r#""fixed_interval":"day""#, Err((104, "/fixed_interval"))),
    (r#""fixed_interval":"d""#, Err((104, "/fixed_interval"))),
    (r#""fixed_interval":"1""#, Err((104, "/fixed_interval"))),
    (r#""fixed_interval":"""#, Err((104, "/fixed_interval"))),
    (r#""fixed_interval":"1 d""#, Err((104, "/fixed_interval"))),
    (r#""fixed_interval":"-1d""#, Err((104, "/fixed_interval"))),
    (r#""fixed_interval":"+1d""#, Err((104, "/fixed_interval"))),
    (r#""fixed_interval":"1.5h""#, Err((104, "/fixed_interval"))),
    (r#""fixed_interval":"1D""#, Err((104, "/fixed_interval"))),
    (r#""fixed_interval":"1é""#, Err((104, "/fixed_interval"))),
    (r#""fixed_interval":1000"#, Err((103, "/fixed_interval"))),
    (r#""fixed_interval":null"#, Err((103, "/fixed_interval"))),
    (r#""fixed_interval":{}"#, Err((103, "/fixed_interval"))),
    // Exactly one of the two, told once all members are read.
    (r#""keyed":true"#, Err((102, ""))),
    (
        r#""calendar_interval":"day","fixed_interval":"1d""#,
        Err((104, "/fixed_interval")),
    ),
    (
        r#""calendar_interval":"2d","fixed_interval":"1d""#,
        Err((104, "/calendar_interval")),
    ),
    (
        r#""calendar_interval":"day","fixed_interval":"1w""#,
        Err((104, "/fixed_interval")),
    ),
    (
        r#""calendar_interval":"day","fixed_interval":"1d","time_zone":"x""#,
        Err((104, "/time_zone")),
    ),
    (
        r#""calendar_interval":"day","fixed_interval":"1d","extended_bounds":{"min":1},"hard_bounds":{"max":0}"#,
        Err((104, "/fixed_interval")),
    ),
    (
        r#""extended_bounds":{"min":1},"hard_bounds":{"max":0}"#,
        Err((102, "")),
    ),
    // Zones, and what is none.
    (
        r#""calendar_interval":"day","time_zone":"UTC""#,
        Ok((DAY, 0)),
    ),
    (r#""calendar_interval":"day","time_zone":"Z""#, Ok((DAY, 0))),
    (
        r#""calendar_interval":"day","time_zone":"+00:00""#,
        Ok((DAY, 0)),
    ),
    (
        r#""calendar_interval":"day","time_zone":"-00:00""#,
        Ok((DAY, 0)),
    ),
    (
        r#""calendar_interval":"day","time_zone":"+00:01""#,
        Ok((DAY, 60_000)),
    ),
    (
        r#""calendar_interval":"day","time_zone":"-09:30""#,
        Ok((DAY, -34_200_000)),
    ),
    (
        r#""calendar_interval":"day","time_zone":"+18:00""#,
        Ok((DAY, 64_800_000)),
    ),
    (
        r#""calendar_interval":"day","time_zone":"-18:00""#,
        Ok((DAY, -64_800_000)),
    ),
    (
        r#""calendar_interval":"day","time_zone":"+18:01""#,
        Err((104, "/time_zone")),
    ),
    (
        r#""calendar_interval":"day","time_zone":"-18:01""#,
        Err((104, "/time_zone")),
    ),
    (
        r#""calendar_interval":"day","time_zone":"+01:60""#,
        Err((104, "/time_zone")),
    ),
    (
        r#""calendar_interval":"day","time_zone":"+0100""#,
        Err((104, "/time_zone")),
    ),
    (
        r#""calendar_interval":"day","time_zone":"-01""#,
        Err((104, "/time_zone")),
    ),
    (
        r#""calendar_interval":"day","time_zone":"+1:00""#,
        Err((104, "/time_zone")),
    ),
    (
        r#""calendar_interval":"day","time_zone":"01:00""#,
        Err((104, "/time_zone")),
    ),
    (
        r#""calendar_interval":"day","time_zone":"+01:000""#,
        Err((104, "/time_zone")),
    ),
    (
        r#""calendar_interval":"day","time_zone":" 01:00""#,
        Err((104, "/time_zone")),
    ),
    (
        r#""calendar_interval":"day","time_zone":"utc""#,
        Err((104, "/time_zone")),
    ),
    (
        r#""calendar_interval":"day","time_zone":"""#,
        Err((104, "/time_zone")),
    ),
    (
        r#""calendar_interval":"day","time_zone":"Europe/Paris""#,
        Err((104, "/time_zone")),
    ),
    (
        r#""calendar_interval":"day","time_zone":0"#,
        Err((103, "/time_zone")),
    ),
    (
        r#""calendar_interval":"day","time_zone":null"#,
        Err((103, "/time_zone")),
    ),
    // Bounds by numbers, by texts and by other values.
    (
        r#""calendar_interval":"day","extended_bounds":{}"#,
        Ok((DAY, 0)),
    ),
    (
        r#""calendar_interval":"day","extended_bounds":{"max":-1}"#,
        Ok((DAY, 0)),
    ),
    (
        r#""calendar_interval":"day","extended_bounds":{"min":"2024","max":"2024-03-01T12:00:00.5+01:00"}"#,
        Ok((DAY, 0)),
    ),
    (
        r#""calendar_interval":"day","extended_bounds":{"min":"1234","max":"12345"}"#,
        Ok((DAY, 0)),
    ),
    (
        r#""calendar_interval":"day","extended_bounds":{"min":5,"max":5}"#,
        Ok((DAY, 0)),
    ),
    (
        r#""calendar_interval":"day","extended_bounds":{"min":-62167219200000,"max":253402214399999}"#,
        Ok((DAY, 0)),
    ),
    (
        r#""calendar_interval":"day","hard_bounds":{"min":6,"max":5}"#,
        Err((104, "/hard_bounds")),
    ),
    (
        r#""calendar_interval":"day","hard_bounds":{"min":-62167219200001}"#,
        Err((104, "/hard_bounds/min")),
    ),
    (
        r#""calendar_interval":"day","hard_bounds":{"max":253402214400000}"#,
        Err((104, "/hard_bounds/max")),
    ),
    (
        r#""calendar_interval":"day","hard_bounds":{"min":9223372036854775808}"#,
        Err((104, "/hard_bounds/min")),
    ),
    (
        r#""calendar_interval":"day","hard_bounds":{"min":1.0}"#,
        Err((104, "/hard_bounds/min")),
    ),
    (
        r#""calendar_interval":"day","hard_bounds":{"max":-0}"#,
        Err((104, "/hard_bounds/max")),
    ),
    (
        r#""calendar_interval":"day","hard_bounds":{"min":"9999-12-31"}"#,
        Err((104, "/hard_bounds/min")),
    ),
    (
        r#""calendar_interval":"day","hard_bounds":{"min":"2023-02-29"}"#,
        Err((104, "/hard_bounds/min")),
    ),
    (
        r#""calendar_interval":"day","hard_bounds":{"max":""}"#,
        Err((104, "/hard_bounds/max")),
    ),
    (
        r#""calendar_interval":"day","hard_bounds":{"min":null}"#,
        Err((103, "/hard_bounds/min")),
    ),
    (
        r#""calendar_interval":"day","hard_bounds":{"min":true}"#,
        Err((103, "/hard_bounds/min")),
    ),
    (
        r#""calendar_interval":"day","hard_bounds":{"max":[]}"#,
        Err((103, "/hard_bounds/max")),
    ),
    (
        r#""calendar_interval":"day","hard_bounds":{"max":{}}"#,
        Err((103, "/hard_bounds/max")),
    ),
    (
        r#""calendar_interval":"day","extended_bounds":{"max":true,"min":"x"}"#,
        Err((103, "/extended_bounds/max")),
    ),
    (
        r#""calendar_interval":"day","extended_bounds":5"#,
        Err((103, "/extended_bounds")),
    ),
    (
        r#""calendar_interval":"day","extended_bounds":null"#,
        Err((103, "/extended_bounds")),
    ),
    (
        r#""calendar_interval":"day","extended_bounds":[]"#,
        Err((103, "/extended_bounds")),
    ),
    (
        r#""calendar_interval":"day","extended_bounds":{"least":1}"#,
        Err((101, "/extended_bounds/least")),
    ),
    (
        r#""calendar_interval":"day","extended_bounds":{"min":5,"max":9},"hard_bounds":{"min":5,"max":9}"#,
        Ok((DAY, 0)),
    ),
    (
        r#""calendar_interval":"day","extended_bounds":{"min":4},"hard_bounds":{"min":5}"#,
        Err((104, "/extended_bounds")),
    ),
    (
        r#""calendar_interval":"day","extended_bounds":{"max":4},"hard_bounds":{"min":5}"#,
        Err((104, "/extended_bounds")),
    ),
    (
        r#""calendar_interval":"day","extended_bounds":{"min":10},"hard_bounds":{"max":9}"#,
        Err((104, "/extended_bounds")),
    ),
    (
        r#""calendar_interval":"day","extended_bounds":{"max":10},"hard_bounds":{"max":9}"#,
        Err((104, "/extended_bounds")),
    ),
    (
        r#""calendar_interval":"day","extended_bounds":{"min":"2024"},"hard_bounds":{"min":1704067200000}"#,
        Ok((DAY, 0)),
    ),
    // Fields; of a name that stands there twice the last counts.
    (
        r#""field":"v.when","calendar_interval":"day""#,
        Ok((DAY, 0)),
    ),
    (
        r#""field":"n","calendar_interval":"day""#,
        Err((108, "/field")),
    ),
    (
        r#""field":"t","calendar_interval":"day""#,
        Err((108, "/field")),
    ),
    (
        r#""field":"b","calendar_interval":"day""#,
        Err((108, "/field")),
    ),
    (
        r#""field":"v","calendar_interval":"day""#,
        Err((108, "/field")),
    ),
    (
        r#""field":"x","calendar_interval":"day""#,
        Err((108, "/field")),
    ),
    (
        r#""field":5,"calendar_interval":"day""#,
        Err((103, "/field")),
    ),
    (r#""field":"n""#, Err((108, "/field"))),
    // The other members.
    (r#""calendar_interval":"day","keyed":true"#, Ok((DAY, 0))),
    (
        r#""calendar_interval":"day","keyed":"true""#,
        Err((103, "/keyed")),
    ),
    (
        r#""calendar_interval":"day","order":{"_count":"desc"}"#,
        Ok((DAY, 0)),
    ),
    (
        r#""calendar_interval":"day","order":[{"_key":"desc"},{"_count":"asc"}]"#,
        Ok((DAY, 0)),
    ),
    (
        r#""calendar_interval":"day","order":{"x":"asc"}"#,
        Err((113, "/order/x")),
    ),
    (
        r#""calendar_interval":"day","order":[]"#,
        Err((104, "/order")),
    ),
    (
        r#""calendar_interval":"day","min_doc_count":0"#,
        Ok((DAY, 0)),
    ),
    (
        r#""calendar_interval":"day","min_doc_count":9223372036854775807"#,
        Ok((DAY, 0)),
    ),
    (
        r#""calendar_interval":"day","min_doc_count":9223372036854775808"#,
        Err((104, "/min_doc_count")),
    ),
    (
        r#""calendar_interval":"day","min_doc_count":"1""#,
        Err((103, "/min_doc_count")),
    ),
    (
        r#""calendar_interval":"day","missing":"2024-03""#,
        Ok((DAY, 0)),
    ),
    (
        r#""calendar_interval":"day","missing":253402214400000"#,
        Err((104, "/missing")),
    ),
    (
        r#""calendar_interval":"day","missing":true"#,
        Err((104, "/missing")),
    ),
    (
        r#""calendar_interval":"day","interval":5"#,
        Err((101, "/interval")),
    ),
    (
        r#""calendar_interval":"day","offset":"1h""#,
        Err((101, "/offset")),
    ),
    (
        r#""calendar_interval":"day","format":"epoch_millis""#,
        Err((101, "/format")),
    ),
];

/// Whether the one aggregation is a date histogram of this period and zone.
fn has_period(aggs: &[Agg], wanted: (Period, i64)) -> bool {
    match aggs {
        [agg] => match agg.kind {
            Kind::DateHistogram { period, zone, .. } => (period, zone) == wanted,
            _ => false,
        },
        _ => false,
    }
}

/// Whether a body with these members of a date histogram is read, or refused, so.
fn is_so(
    alloc: Global,
    mapping: &Mapping,
    members: &str,
    wanted: Result<(Period, i64), (u16, &str)>,
) -> Result<bool, Fail>
    requires { IsOrdered mapping.now }
{
    let body = format!(in alloc;
        "{{\"aggs\":{{\"a\":{{\"date_histogram\":{{\"field\":\"when\",{members}}}}}}}}}"
    )?;
    let found = read(alloc, body.as_bytes(), mapping);
    Ok(match (found, wanted) {
        (Ok(search), Ok(wanted)) => has_period(search.aggs.as_slice(), wanted),
        (Err(RequestFault::Bad { code, path }), Err((wanted, place))) => {
            code == wanted && path.as_str().strip_prefix("/aggs/a/date_histogram") == Some(place)
        }
        _ => false,
    })
}

#[test]
fn date_histograms_are_read_or_refused(rt: HostRuntime) -> Result<(), Fail> {
    let mapping = mapping(rt.alloc())?;
    for (members, wanted) in &ROWS {
        assert!(rt; is_so(rt.alloc(), &mapping, members, *wanted)?, "{members}");
    }
    Ok(())
}
