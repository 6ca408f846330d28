//! Opens the ledger.

ghost use Rattle.std.specs.Prelude.{◌≡◌, ◌≤◌, None, Some, IfOk, IfSome, OnOk, IfErr, OnErr, option_map};
ghost use Rattle.desk_ledger.specs.Ledger.{Ledger, with_header};
ghost use Rattle.desk_run.specs.Answers.{other_run, same_header};
ghost use Rattle.desk_run.specs.Halts.{HaltsAtLedger, NamedAtHalt};
ghost use Rattle.desk_run.specs.Meaning.{header_of};
ghost use Rattle.desk_run.specs.Truth.{IsOurs};

use desk_base::{Memory, Text};
use desk_intake::{DigestedRules, Halt};
use desk_ledger::{Header, Keeper};
use desk_report::Status;
use desk_words::Roots;

/// The header that the ledger of a run has.
pub(crate) fn make_header(names: &Roots, ruled: &DigestedRules) -> Result<Header, Memory>
    ensures { IfOk result (λ header. header ≡ header_of names.now ruled.now) }
{
    let from = names.from.clone()?;
    let to = names.to.clone()?;
    Ok(Header {
        from,
        to,
        rules: ruled.digest,
    })
}

/// Whether two headers are one.
fn is_same(a: &Header, b: &Header) -> bool
    ensures { result ≡ same_header a.now b.now }
{
    a.from == b.from && (a.to == b.to && a.rules == b.rules)
}

/// Attaches the ledger, and gives it this run's header if it has none.
pub(crate) fn open_ledger<K: Keeper>(
    keeper: &mut K,
    name: &Text,
    header: &Header,
) -> Result<(), Halt>
    ensures ok { OnOk result (K.told keeper.new ≡ option_map (with_header header.now) (K.told keeper.old)) }
    ensures ours { OnOk result (IfSome (K.told keeper.old) (λ l. IsOurs header.now l.header)) }
    ensures other { OnOk result (IfSome (K.told keeper.old) (λ l. other_run header.now l.header ≡ None)) }
    ensures attached { OnOk result (K.attached keeper.new ≡ Some name.now) }
    ensures same { OnErr result (K.told keeper.new ≡ K.told keeper.old) }
    ensures named { IfErr result (NamedAtHalt (K.attached keeper.old) (K.attached keeper.new) name.now) }
    ensures err { IfErr result (HaltsAtLedger header.now (K.told keeper.old) (K.faults keeper.old) (K.faults keeper.new)) }
    ensures counts { K.faults keeper.old ≤ K.faults keeper.new }
{
    keeper.attach(name)?;
    let Some(kept) = keeper.header()? else {
        keeper.set_header(header)?;
        return Ok(());
    };
    if is_same(&kept, header) {
        return Ok(());
    }
    let wanted = header.clone()?;
    Err(Halt::Answer(Status::OtherRun { kept, wanted }))
}
