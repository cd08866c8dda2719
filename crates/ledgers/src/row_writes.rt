//! Rows read and written, one at a time. A row is made before it is written, so that writing takes no memory; only `add_amount` does both.
ghost use Rattle.std.specs.Prelude.{◌≡◌, ◌+◌, ◌-◌, ◌^◌, ◌≤◌, OnOk, OnErr, if◌then◌else◌};
ghost use Rattle.std.specs.Ordering.{eq_by_cmp};
ghost use Rattle.std.specs.Map.{keys_of};
ghost use Rattle.std.specs.List.Sorted.{IsStrictlySortedBy};
ghost use Rattle.ledgers.specs.LedgerRows.{AmountKey, amount_key_cmp, OwnerKey, owner_key_cmp, amount_in_row, owner_at, AreSmall, HasAmountRow, HasOwnerRow};

use crate::account_key::AccountKey;
use asset_lists::Instance;
use std::alloc::AllocError;
use std::collections::BTreeMap;

/// What each account has of each asset, by the account and the asset's number. A row may say 0.
pub(crate) type AmountRows = BTreeMap<(AccountKey, u32), u128>;

/// Who owns each instance, by its class's number and the instance. A row may name nobody.
pub(crate) type OwnerRows = BTreeMap<(u32, Instance), Option<[u8; 32]>>;

/// The amount in a row, 0 where there is none.
pub(crate) fn amount_in(rows: &AmountRows, number: u32, who: &[u8; 32]) -> u128
    ensures { result ≡ amount_in_row rows.now.entries (who.now, number) }
{
    rows.get(&(AccountKey::of(who), number))
        .copied()
        .unwrap_or(0)
}

/// Makes a row that says 0 where there is none.
pub(crate) fn make_amount_row(
    rows: &mut AmountRows,
    number: u32,
    who: &[u8; 32],
) -> Result<(), AllocError>
    ensures same { (q : AmountKey)
        → amount_in_row rows.new.entries q ≡ amount_in_row rows.old.entries q }
    ensures stay { (q : AmountKey)
        → HasAmountRow rows.old.entries q → HasAmountRow rows.new.entries q }
    ensures made { OnOk result (HasAmountRow rows.new.entries (who.now, number)) }
    ensures small { AreSmall rows.old.entries → AreSmall rows.new.entries }
{
    let key = (AccountKey::of(who), number);
    if rows.contains_key(&key) {
        return Ok(());
    }
    rows.insert(key, 0)?;
    Ok(())
}

/// Lowers the amount of a row that has as much, and answers what is left.
pub(crate) fn lower_amount(rows: &mut AmountRows, number: u32, who: &[u8; 32], amount: u128) -> u128
    requires there { HasAmountRow rows.old.entries (who.now, number) }
    requires enough { amount ≤ amount_in_row rows.old.entries (who.now, number) }
    ensures left { result ≡ amount_in_row rows.old.entries (who.now, number) - amount }
    ensures wrote { (q : AmountKey) → amount_in_row rows.new.entries q
        ≡ (if eq_by_cmp amount_key_cmp (who.now, number) q then amount_in_row rows.old.entries
        (who.now, number) - amount else amount_in_row rows.old.entries q) }
    ensures stay { (q : AmountKey)
        → HasAmountRow rows.old.entries q → HasAmountRow rows.new.entries q }
    ensures small { AreSmall rows.old.entries → AreSmall rows.new.entries }
{
    match rows.get_mut(&(AccountKey::of(who), number)) {
        Some(have) => {
            *have -= amount;
            *have
        }
        None => unreachable!(),
    }
}

/// Raises the amount of a row that is there.
pub(crate) fn raise_amount(rows: &mut AmountRows, number: u32, who: &[u8; 32], amount: u128)
    requires there { HasAmountRow rows.old.entries (who.now, number) }
    requires room { amount_in_row rows.old.entries (who.now, number) + amount ≤ 2 ^ 128 - 1 }
    ensures wrote { (q : AmountKey) → amount_in_row rows.new.entries q
        ≡ (if eq_by_cmp amount_key_cmp (who.now, number) q then amount_in_row rows.old.entries
        (who.now, number) + amount else amount_in_row rows.old.entries q) }
    ensures stay { (q : AmountKey)
        → HasAmountRow rows.old.entries q → HasAmountRow rows.new.entries q }
    ensures small { AreSmall rows.old.entries → AreSmall rows.new.entries }
{
    match rows.get_mut(&(AccountKey::of(who), number)) {
        Some(have) => *have += amount,
        None => unreachable!(),
    }
}

/// Raises the amount of a row, and makes the row where there is none. An `Err` is out of memory, and then all rows
/// say what they said.
pub(crate) fn add_amount(
    rows: &mut AmountRows,
    number: u32,
    who: &[u8; 32],
    amount: u128,
) -> Result<(), AllocError>
    requires { amount_in_row rows.old.entries (who.now, number) + amount ≤ 2 ^ 128 - 1 }
    ensures wrote { OnOk result ((q : AmountKey) → amount_in_row rows.new.entries q
        ≡ (if eq_by_cmp amount_key_cmp (who.now, number) q then amount_in_row rows.old.entries
        (who.now, number) + amount else amount_in_row rows.old.entries q)) }
    ensures same { OnErr result ((q : AmountKey)
        → amount_in_row rows.new.entries q ≡ amount_in_row rows.old.entries q) }
    ensures small { AreSmall rows.old.entries → AreSmall rows.new.entries }
{
    let have = rows.entry((AccountKey::of(who), number))?.or_insert(0);
    *have += amount;
    Ok(())
}

/// Takes a row that says 0 out.
pub(crate) fn sweep_amount(rows: &mut AmountRows, number: u32, who: &[u8; 32])
    ensures same { (q : AmountKey)
        → amount_in_row rows.new.entries q ≡ amount_in_row rows.old.entries q }
    ensures small { AreSmall rows.old.entries → AreSmall rows.new.entries }
{
    if amount_in(rows, number, who) > 0 {
        return;
    }
    rows.remove(&(AccountKey::of(who), number));
}

/// The owner of an instance.
pub(crate) fn owner_in(rows: &OwnerRows, number: u32, instance: Instance) -> Option<[u8; 32]>
    ensures { result ≡ owner_at rows.now.entries (number, instance) }
{
    rows.get(&(number, instance)).copied().unwrap_or(None)
}

/// Makes a row that names nobody where there is none.
pub(crate) fn make_owner_row(
    rows: &mut OwnerRows,
    number: u32,
    instance: Instance,
) -> Result<(), AllocError>
    ensures same { (q : OwnerKey) → owner_at rows.new.entries q ≡ owner_at rows.old.entries q }
    ensures stay { (q : OwnerKey)
        → HasOwnerRow rows.old.entries q → HasOwnerRow rows.new.entries q }
    ensures made { OnOk result (HasOwnerRow rows.new.entries (number, instance)) }
    ensures sorted { IsStrictlySortedBy owner_key_cmp (keys_of rows.new.entries) }
{
    // For the prover alone: the rows are sorted.
    let _ = rows.len();
    let key = (number, instance);
    if rows.contains_key(&key) {
        return Ok(());
    }
    rows.insert(key, None)?;
    Ok(())
}

/// Writes the owner, or nobody, into a row that is there.
pub(crate) fn write_owner(
    rows: &mut OwnerRows,
    number: u32,
    instance: Instance,
    owner: Option<[u8; 32]>,
)
    requires { HasOwnerRow rows.old.entries (number, instance) }
    ensures wrote { (q : OwnerKey) → owner_at rows.new.entries q
        ≡ (if eq_by_cmp owner_key_cmp (number, instance) q then owner
        else owner_at rows.old.entries q) }
    ensures stay { (q : OwnerKey)
        → HasOwnerRow rows.old.entries q → HasOwnerRow rows.new.entries q }
    ensures sorted { IsStrictlySortedBy owner_key_cmp (keys_of rows.new.entries) }
{
    match rows.insert((number, instance), owner) {
        Ok(_) => {}
        Err(_) => unreachable!(),
    }
}

/// Takes a row that names nobody out.
pub(crate) fn sweep_owner(rows: &mut OwnerRows, number: u32, instance: Instance)
    ensures same { (q : OwnerKey) → owner_at rows.new.entries q ≡ owner_at rows.old.entries q }
    ensures sorted { IsStrictlySortedBy owner_key_cmp (keys_of rows.new.entries) }
{
    // For the prover alone: the rows are sorted.
    let _ = rows.len();
    if owner_in(rows, number, instance).is_some() {
        return;
    }
    rows.remove(&(number, instance));
}
