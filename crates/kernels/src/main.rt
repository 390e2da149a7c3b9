//! The program `kernels`: answers the lines of standard input on standard output.
#![tactic(auto)]

use arrow_tool::engine;
use arrow_tool::stream::Guarded;
use std::process::ExitCode;

fn main(rt: HostRuntime) -> ExitCode {
    let mut reader = Guarded::new(rt.stdin());
    let mut writer = Guarded::new(rt.stdout());
    let outcome = engine::run(rt.alloc(), &mut reader, &mut writer);
    ExitCode::from(engine::status(&outcome))
}
