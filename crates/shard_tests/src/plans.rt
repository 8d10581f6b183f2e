//! The search of each task of a plan.
use agg_model::List;
use arrival_moves::Plan;
use std::test::Fail;

#[test]
fn each_task_has_its_search(rt: HostRuntime) -> Result<(), Fail> {
    let mut tasks = List::new(rt.alloc());
    tasks.push(0)?;
    tasks.push(0)?;
    tasks.push(2)?;
    let plan = Plan {
        tasks,
        searches: 3,
        batch: 2,
    };
    assert_eq!(rt; plan.search_of(0), 0);
    assert_eq!(rt; plan.search_of(1), 0);
    assert_eq!(rt; plan.search_of(2), 2);
    Ok(())
}
