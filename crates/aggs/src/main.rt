//! `aggs` over standard input and output.
#![tactic(auto)]

use agg_base::{StdSink, StdSource};
use agg_listen::LargeAnswers;
use agg_program::run_arguments;
use std::env;
use std::process::ExitCode;
use worker_gate::OpenGate;

fn main(rt: HostRuntime) -> ExitCode {
    let ended = run_arguments(
        &rt,
        rt.alloc(),
        env::args(&rt),
        &mut StdSource::new(rt.stdin()),
        &mut StdSink::new(rt.stdout()),
        LargeAnswers::new(rt.stderr()),
        &OpenGate,
    );
    ExitCode::from(ended.status)
}
