#![tactic(auto)]

//! `lagvettu`: one command for scripts and their lists. What its words ask is done by `work`; here are the system's files and streams. The exit
//! status is 0 where all is accepted, 1 where an input is refused, 2 for wrong use, and 3 where input or output failed.
mod streams; // streams.rt: the numbers of the standard streams
mod system; // system.rt: the files of the system

use crate::streams::keep_numbers;
use crate::system::Inputs;
use outcome::output::Stream;
use std::process::ExitCode;
use wholefile::system::System;
use work::running::call;

fn main(rt: HostRuntime) -> ExitCode {
    let _kept = keep_numbers(&rt, &rt.stdin());
    let mut out = Stream {
        clock: &rt,
        to: rt.stdout(),
    };
    let errors = &mut rt.stderr();
    call(
        &rt,
        &rt,
        rt.alloc(),
        &Inputs { rt: &rt },
        System { rt: &rt },
        &mut out,
        errors,
    )
}
