//! The book of burns.
use crate::Total;
use asset_lists::{Kind, StoredId};
use std::marker::Model;

/// Why assets were given up.
#[derive(Clone, Copy, Debug, PartialEq, Eq, PartialOrd, Ord)]
pub enum Cause {
    /// The instruction that burns assets.
    BurnAsset,
    /// A teleport that its receiver refused.
    LostTeleport,
    /// An instance that two joined bundles held.
    Merged,
    /// What would have passed 2^128-1 of an amount.
    Saturated,
}

/// A listed asset, and what was burned of it for each cause.
#[derive(Drop)]
pub(crate) struct BookRow {
    pub(crate) id: StoredId,
    pub(crate) kind: Kind,
    pub(crate) burned: Total,
    pub(crate) lost: Total,
    pub(crate) merged: Total,
    pub(crate) saturated: Total,
}

/// The book of burns: for each listed asset and each cause a total. Its rows are made when it opens.
#[derive(Drop)]
pub struct BurnBook {
    pub(crate) rows: Vec<BookRow>,
}

impl Model for BurnBook {
    ghost use Rattle.asset_bundles.specs.Books.{Book};
    ghost use Rattle.asset_bundles.specs.BookCode.{book_code};

    ghost Value = { Book };

    ghost coded = { book_code };

    ghost use Rattle.asset_bundles.specs.BookRows.{book_of_rows, AreInRange};

    ghost view = { λ b. book_of_rows b.rows.items };

    ghost invariant = { λ b. AreInRange b.rows.items };
}
