//! Why a document describes no network, and where.
ghost use Rattle.std.specs.Prelude.{Some};
ghost use Rattle.document_entries.specs.Texts.{fault_text, document_place_text, section_name};

use std::fmt;

/// A section of a network document. Its text is its name in the document.
#[derive(Clone, Copy, Debug, PartialEq, Eq)]
pub enum Section {
    /// The document as a whole.
    Top,
    /// A chain's own fields, among them those that hold its lists.
    Fields,
    /// The barriers of a chain.
    Barriers,
    /// What weight costs on a chain.
    Rates,
    /// The assets that a chain lists.
    Assets,
    /// What the accounts of a chain hold.
    Accounts,
    /// The pallets of a chain.
    Pallets,
    /// The open queries of a chain.
    Queries,
    /// The pools of a chain.
    Pools,
    /// The channels between chains.
    Channels,
}

/// A position in a network document. Its text is the section and the index, with a space between; before them come
/// `chains` and the chain's entry where the section is of a chain.
#[derive(Clone, Copy, Debug, PartialEq, Eq)]
pub struct Place {
    /// The entry of the chain that the section is of, from 0.
    pub chain: Option<u32>,
    /// The section.
    pub section: Section,
    /// The entry of the section, from 0; 0 for `top` and `fields`. Entries past 2^32-1 are all called that.
    pub index: u32,
}

/// Why bytes describe no network, and where. Its text is the cause's name and the position, as `BadValue at chains 0 barriers 0`.
#[derive(Clone, Copy, Debug, PartialEq, Eq)]
pub enum NetworkFault {
    /// The bytes have no reading as JSON.
    NotJson(Place),
    /// A field that is needed isn't there.
    MissingField(Place),
    /// A value of another JSON type than is asked for, or a number that isn't a whole number below 2^64.
    WrongKind(Place),
    /// An object has a field that it has no use for.
    UnknownField(Place),
    /// A value isn't of the form or in the range that is asked for, or names what isn't there.
    BadValue(Place),
    /// An entry says anew what an earlier one has said.
    Repeated(Place),
    /// More than a limit allows.
    LimitPassed(Place),
    /// Out of memory.
    Memory,
}

impl fmt::Display for Section {
    ghost output = { λ s. Some (section_name s) };

    fn fmt<W: fmt::Write>(&self, f: &mut fmt::Formatter<W>) -> fmt::Result {
        match self {
            Section::Top => write!(f, "top"),
            Section::Fields => write!(f, "fields"),
            Section::Barriers => write!(f, "barriers"),
            Section::Rates => write!(f, "rates"),
            Section::Assets => write!(f, "assets"),
            Section::Accounts => write!(f, "accounts"),
            Section::Pallets => write!(f, "pallets"),
            Section::Queries => write!(f, "queries"),
            Section::Pools => write!(f, "pools"),
            Section::Channels => write!(f, "channels"),
        }
    }
}

impl fmt::Display for Place {
    ghost output = { λ p. Some (document_place_text p) };

    fn fmt<W: fmt::Write>(&self, f: &mut fmt::Formatter<W>) -> fmt::Result {
        let section = self.section;
        let index = self.index;
        match self.chain {
            Some(chain) => write!(f, "chains {chain} {section} {index}"),
            None => write!(f, "{section} {index}"),
        }
    }
}

impl fmt::Display for NetworkFault {
    ghost output = { λ e. Some (fault_text e) };

    fn fmt<W: fmt::Write>(&self, f: &mut fmt::Formatter<W>) -> fmt::Result {
        match self {
            NetworkFault::NotJson(place) => write!(f, "NotJson at {place}"),
            NetworkFault::MissingField(place) => write!(f, "MissingField at {place}"),
            NetworkFault::WrongKind(place) => write!(f, "WrongKind at {place}"),
            NetworkFault::UnknownField(place) => write!(f, "UnknownField at {place}"),
            NetworkFault::BadValue(place) => write!(f, "BadValue at {place}"),
            NetworkFault::Repeated(place) => write!(f, "Repeated at {place}"),
            NetworkFault::LimitPassed(place) => write!(f, "LimitPassed at {place}"),
            NetworkFault::Memory => write!(f, "out of memory"),
        }
    }
}
