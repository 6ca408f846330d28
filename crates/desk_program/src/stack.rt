//! The stack of the program.

use std::fs::File;
use std::io::Read;

/// How many bytes of stack are taken in one step.
const STEP: usize = 16_384;

/// How many steps are taken, which are 512 KiB: somewhat more than the program uses.
const STEPS: u32 = 32;

/// Takes so many steps of the stack, and gives them back. A folder can't be read as a file, so the call fails: it is there for the room
/// that it is handed.
fn take_steps(folder: &mut File, steps: u32) {
    let mut room = [0u8; STEP];
    if steps > 1 {
        take_steps(folder, steps - 1);
    }
    let _refused = folder.read(&mut room);
}

/// Takes the stack that the program needs, and gives it back. The system makes room for a stack only as it is used, and ends a program
/// by a signal where there is none: so it does that before anything is read or written, and not within a run.
pub fn take_stack(rt: &HostRuntime) {
    if let Ok(mut folder) = File::open(rt, "/") {
        take_steps(&mut folder, STEPS);
    }
}
