//! Cases of what is told to people beside the report: hints, lines of faults, notes of reports and of rules, and roots that are
//! one on the disk. They show what no contract says: that the texts say what they should, what is read from names, keys and
//! lines, and that a link is followed; and that each call answers with memory enough.
//!
//! ```text
//! hints                                      how many hints there are, how many of them are two lines for people, and how
//!                                            many have a text of their own
//! hint STATUS WORD ..                        the hint of a status
//! listed TRIED PATH CAUSE                    what stood where a folder was listed, by a fault
//! hint-behind LISTED STATUS WORD ..          the hint of a status, by that
//! release MAJOR                              the Java release of a major version
//! release-line PATH MAJOR                    the line of a class that was refused for its version
//! words WORD ..                              takes what is said of words that ask for nothing
//! fault TRIED PATH CAUSE                     the line of a fault
//! report-line LINE                           what a line of a report says
//! archive PATH                               whether it is the path of an archive
//! signature PATH                             whether it is the path of a signature
//! slip KEY                                   why a key looks like a slip
//! unshown SHOWN                              the text that is shown so
//! rule-notes NAME CONTENT                    takes what is noted of a rule file
//! unmet CONTENT PATH ..                      takes what is noted of a selection that may fit these paths
//! key-lines CONTENT                          the keys of a rule file with their lines
//! byte-line CONTENT AT                       the line in which a byte stands
//! notes REPORT                               takes what is noted of a report
//! copied TIMES PATH                          puts lines of copied files
//! kept PATH                                  puts the line of a kept file
//! unsettled PATH AT                          puts the line of a refused text
//! overhear                                   writes the lines that were put, and takes what is noted of them
//! count-notes                                how many notes what was taken holds
//! closing FILES WRITTEN KEPT REFUSED NOTES   the last line of a run
//! holds PART                                 whether what was taken holds this
//! lies-in NODES REST NODES REST              whether a place lies in another
//! folder PATH                                makes a folder
//! link PATH TO                               makes a link at a path, which leads there
//! roots RULES FROM TO LEDGER                 the first pair of roots of which one lies in the other, or a root without a place
//! remove                                     removes all folders and links
//! ```
#![tactic(auto)]

mod case;
mod commands;
mod disk;
mod faults;
mod hints;
mod names;
mod places;
mod reports;
mod rules;
mod statuses;
mod told;
mod words;

use case::Case;
use std::io;
use test_cases::answer_all;

fn main(rt: HostRuntime) -> io::Result<()> {
    answer_all(&rt, &mut Case::new(&rt))
}
