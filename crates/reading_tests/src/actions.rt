//! Action lines of the bulk section.
use action_lines::action_of;
use agg_model::ActionKind;
use agg_model::script_refusal::{MALFORMED_ACTION, UPDATE_NOT_SUPPORTED};
use agg_reading::RequestFault;
use std::alloc::Global;
use std::process::Abort;
use std::test::Fail;

/// Whether the line is an action of this kind with this id and this routing, where seven actions of the index `i` come
/// before it.
fn is_action(alloc: Global, line: &[u8], kind: ActionKind, id: &str, routing: &str) -> bool {
    match action_of(alloc, "i", 7, line) {
        Ok(heading) => {
            heading.kind == kind && heading.id.as_str() == id && heading.routing.as_str() == routing
        }
        Err(_) => false,
    }
}

/// Whether the line is refused with this number, and with no pointer.
fn is_refused(alloc: Global, line: &[u8], number: u8) -> bool {
    match action_of(alloc, "i", 7, line) {
        Err(RequestFault::Bad { code, path }) => code == u16::from(number) && path.is_empty(),
        _ => false,
    }
}

/// Asserts that each line is an action of its kind, with its id and its routing.
fn expect_actions(rt: &impl Abort, alloc: Global, rows: &[(&str, ActionKind, &str, &str)]) {
    for &(line, kind, id, routing) in rows {
        assert!(rt;
            is_action(alloc, line.as_bytes(), kind, id, routing),
            "{line}"
        );
    }
}

/// Asserts that each line is no action.
fn expect_malformed(rt: &impl Abort, alloc: Global, lines: &[&str]) {
    for line in lines {
        assert!(rt;
            is_refused(alloc, line.as_bytes(), MALFORMED_ACTION),
            "{line}"
        );
    }
}

#[test]
fn actions_say_what_they_give_and_make_what_they_do_not(rt: HostRuntime) {
    let rows = &[
        ("{\"index\":{}}", ActionKind::Index, "_auto_7", "_auto_7"),
        (
            "{\"create\":{\"_id\":\"a\",\"_index\":\"i\"}}",
            ActionKind::Create,
            "a",
            "a",
        ),
        (
            "{\"delete\":{\"_id\":-12,\"routing\":\"r\"}}",
            ActionKind::Delete,
            "-12",
            "r",
        ),
        (
            " {\"index\":{\"_id\":null,\"_index\":null,\"pipeline\":null,\"routing\":\"\",\"_type\":7}} ",
            ActionKind::Index,
            "_auto_7",
            "",
        ),
        (
            "{\"index\":{\"_id\":\"a\",\"_id\":\"b\",\"routing\":18446744073709551615}}",
            ActionKind::Index,
            "b",
            "18446744073709551615",
        ),
    ];
    expect_actions(&rt, rt.alloc(), rows);
}

#[test]
fn lines_that_are_no_actions_are_refused(rt: HostRuntime) {
    let lines = &[
        "",
        "{\"index\":{}",
        "[]",
        "{}",
        "{\"index\":{},\"create\":{}}",
        "{\"index\":null}",
        "{\"update\":[]}",
        "{\"Index\":{}}",
        "{\"index\":{\"_index\":\"j\"}}",
        "{\"index\":{\"_index\":1}}",
        "{\"index\":{\"pipeline\":\"p\"}}",
        "{\"index\":{\"if_seq_no\":0}}",
        "{\"index\":{\"if_primary_term\":0}}",
        "{\"index\":{\"version\":0}}",
        "{\"index\":{\"version_type\":\"\"}}",
        "{\"index\":{\"_id\":\"\"}}",
        "{\"index\":{\"_id\":1.0}}",
        "{\"index\":{\"_id\":true}}",
        "{\"index\":{\"routing\":[]}}",
        "{\"delete\":{}}",
    ];
    expect_malformed(&rt, rt.alloc(), lines);
    let update = b"{\"update\":{\"_id\":\"a\"}}";
    assert!(rt; is_refused(rt.alloc(), update, UPDATE_NOT_SUPPORTED));
}

#[test]
fn ids_have_at_most_512_bytes(rt: HostRuntime) -> Result<(), Fail> {
    let alloc = rt.alloc();
    let id = "0123456789abcdef".repeat(alloc, 32)?;
    let longest = format!(in alloc; "{{\"index\":{{\"_id\":\"{id}\",\"routing\":\"r\"}}}}")?;
    assert!(rt;
        is_action(
            alloc,
            longest.as_bytes(),
            ActionKind::Index,
            id.as_str(),
            "r"
        )
    );
    let longer = format!(in alloc; "{{\"index\":{{\"_id\":\"{id}x\"}}}}")?;
    assert!(rt; is_refused(alloc, longer.as_bytes(), MALFORMED_ACTION));
    Ok(())
}
