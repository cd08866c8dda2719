//! Lists whose entries are looked at beside one another.
ghost use Rattle.std.specs.Prelude.{◌≡◌, [], Option};
ghost use Rattle.network_config.specs.References.{flaw_at, each_in};

use document_entries::{NetworkFault, Place, Section};

/// What is wrong with an entry, beside the others.
#[derive(Clone, Copy)]
pub(crate) struct Flaws {
    /// An earlier entry has said what it says.
    pub(crate) repeated: bool,
    /// It names what isn't there.
    pub(crate) bad: bool,
    /// It passes a limit.
    pub(crate) past: bool,
}

/// Refuses an entry that has a flaw.
pub(crate) fn check_flaws(place: Place, flaws: Flaws) -> Result<(), NetworkFault>
    ensures { result ≡ flaw_at place flaws }
{
    if flaws.repeated {
        return Err(NetworkFault::Repeated(place));
    }
    if flaws.bad {
        return Err(NetworkFault::BadValue(place));
    }
    if flaws.past {
        return Err(NetworkFault::LimitPassed(place));
    }
    Ok(())
}

/// A test of the entries of a list.
pub(crate) trait Check<T> {
    ghost use Rattle.std.specs.Prelude.{List};
    ghost use Rattle.network_config.specs.declared.checks.Flaws.{Flaws};

    /// The flaws of an entry, beside the earlier ones.
    ghost flaws: { Self → List T → T → Flaws };

    /// The flaws of an entry, beside the earlier ones.
    fn flaws_of(&self, earlier: &[T], item: &T) -> Flaws
        ensures { result ≡ flaws self.now earlier.now item.now };
}

/// Refuses a list by the first of its entries that has a flaw.
pub(crate) fn check_each<T, C: Check<T>>(
    check: &C,
    chain: Option<u32>,
    section: Section,
    items: &[T],
) -> Result<(), NetworkFault>
    ensures { result ≡ each_in (C.flaws check.now) chain section 0 [] items.now }
{
    let mut index: u32 = 0;
    for (at, item) in items.iter().enumerate() {
        let place = Place {
            chain,
            section,
            index,
        };
        let flaws = check.flaws_of(&items[..at], item);
        check_flaws(place, flaws)?;
        index = index.saturating_add(1);
    }
    Ok(())
}
