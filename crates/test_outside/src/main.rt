//! Cases of what stands outside of a run: folders in memory and on a disk, a ledger in memory, and digests.
//!
//! ```text
//! file PATH BYTES                       a file that folders in memory begin with
//! in-memory [CALL]..                    folders in memory, of which these calls fail
//! on-disk                               folders on a disk, and an empty folder that paths are relative to
//! create PATH | append PATH BYTES | size PATH | list ROOT MOST       calls of the folders
//! read PATH AT WANT | read-length PATH AT WANT                       a part of a file, or how many bytes it has
//! create-files FOLDER COUNT             makes files with names of four digits
//! count ROOT MOST                       how many paths are listed, and the last
//! content PATH                          what a file holds: of folders on a disk, as the system reads it
//! stop CALL | mend                      the calls of folders in memory from one on fail; none fails any more
//! keep-within PATH | fault              the target of folders on a disk; the last fault that they remember
//! keep-apart WRITTEN READ               what is written over folders on a disk, and what is read
//! symlink TEXT PATH | hard-link OLD NEW | overwrite PATH BYTES       what another program does to files
//! digest BYTES | digest-parts BYTES..   a digest
//! ledger new [CALL]..                   a ledger in memory, of which these calls fail
//! ledger old-row TARGET SOURCE BYTE     a row of format 1
//! ledger first-format FROM TO BYTE      a ledger that is taken over from format 1, with these rows
//! ledger attach NAME | header | commit | find TARGET | forget TARGET | stop CALL | mend
//! ledger put TARGET SOURCE BYTE | set-header FROM TO BYTE
//! ```
//!
//! A digest of a row or a header is named by the byte that it has 32 times; the output of a row that is put has the
//! complement of that byte.
#![tactic(auto)]

mod attached;
mod calls;
mod case;
mod digests;
mod ledgers;
mod own;
mod places;
mod told;
mod words;

use case::Case;
use std::io;
use test_cases::answer_all;

fn main(rt: HostRuntime) -> io::Result<()> {
    let mut case = Box::new(rt.alloc(), Case::new(&rt)?)?;
    let done = answer_all(&rt, case.as_mut());
    case.leave();
    done
}
