//! The laws of conservation. Each function has an empty body, and its contract is a law.
ghost use Rattle.std.specs.Prelude.{◌≡◌, ◌≢◌, ℕ, ◌+◌, ◌<◌, ◌≤◌, ◌^◌, List, Some, None, slice_get, slice_set};
ghost use Rattle.amounts.specs.Amounts.{amount};
ghost use Rattle.asset_lists.specs.declared.units.Instance.{Instance};
ghost use Rattle.asset_lists.specs.Units.{Unit};
ghost use Rattle.asset_bundles.specs.Bundles.{Bundle};
ghost use Rattle.chain_ids.specs.declared.chain.ChainId.{ChainId};
ghost use Rattle.trust_tables.specs.declared.rows.AssetRow.{AssetRow};
ghost use Rattle.trust_tables.specs.Accounts.{IsChain};
ghost use Rattle.law_coherence.specs.UniversalAssets.{every, just};
ghost use Rattle.law_coherence.specs.UniversalAssets.{UniversalAsset};
ghost use Rattle.law_coherence.specs.Networks.{Table, IsIn, asset_of_row, is_home, AreTwins, IsNetwork, Agrees};
ghost use Rattle.law_coherence.specs.Causes.{ChainEntry, first_cause};
ghost use Rattle.law_coherence.specs.Causes as causes;
ghost use Rattle.trust_tables.specs.declared.rows.AssetRole.TheVariants.{Derivative};
ghost use Rattle.trust_tables.specs.Accounts.{sovereign_account};
ghost use Rattle.asset_lists.specs.declared.units.AssetId.TheVariants.{Concrete};
ghost use Rattle.std.specs.Prelude.{Option, true};
ghost use Rattle.law_coherence.specs.Trusting.{IsShared};
ghost use Rattle.law_coherence.specs.Parts.{Cargo, Deposit, Teleport, Withdrawal, Part, WorldView, Count, choice_of, chain_of_part, teleported, stock, burned, supply, population, Backed};
ghost use Rattle.law_coherence.specs.Steps.{tables_of, IsSafe, IsExchange, SafeStep};
ghost use Rattle.law_coherence.specs.Moves.{IsInternal, IsSent, IsLost, IsReceived, IsTrusted};
ghost use Rattle.law_coherence.specs.Cargoes.{IsDepositFor};
ghost use Rattle.law_coherence.specs.Channels.{front};
ghost use Rattle.law_coherence.specs.Histories.{History};
ghost use Rattle.law_coherence.specs.Payments.{IsJust, AreHeldListed};
ghost use Rattle.law_coherence.specs.Genesis.{HasInstancesOnce, HasLowAccounts, IsSoundFirst, first_world_view};
ghost use Rattle.law_coherence.specs.Headline.{IsKept};
ghost use Rattle.law_coherence.specs.Checking.{checking_at};

/// A safe change of one chain, or of two at once, keeps every supply, makes no instance, and keeps every derivative backed and every checking
/// account right.
pub fn law_of_conserving_safe_changes()
    ensures one { (w : WorldView) (agrees : Agrees (tables_of w)) (i : ℕ) (p q : Part)
        → slice_get w i ≡ Some p → IsSafe p q → SafeStep w (slice_set w i q) }
    ensures two { (w : WorldView) → Agrees (tables_of w) → (i j : ℕ) (p p' q q' : Part)
        → slice_get w i ≡ Some p → slice_get w j ≡ Some q → (i ≡ j → ⊥) → IsExchange p p' q q'
        → SafeStep w (slice_set (slice_set w i p') j q') }
{}

/// A move inside a chain, sending and losing a message are safe changes of one chain, and receiving one is a safe change of two.
pub fn law_of_safe_moves()
    ensures internal { (p q : Part) → IsInternal p q → IsSafe p q }
    ensures sent { (to : ChainId) (cargo : Cargo) (p q : Part) → IsSent to cargo p q → IsSafe p q }
    ensures lost { (to : ChainId) (cargo : Cargo) (p q : Part) → IsLost to cargo p q → IsSafe p q }
    ensures received { (cargo : Cargo) (p p' q q' : Part) → chain_of_part p ≢ chain_of_part q
        → IsChain (chain_of_part p)
        → IsReceived cargo p p' q q' → IsTrusted cargo p q → IsExchange p p' q q' }
{}

/// What trust gives of a cargo.
pub fn law_of_trusted_cargoes()
    ensures teleport { (n : List Table) (agrees : Agrees n) (p q : Part) (b : Bundle)
        → IsIn n q.table → ((u : Unit) → 0 < amount b u → IsShared p.table q.table u)
        → IsTrusted (Teleport b) p q }
    ensures deposit { (n : List Table) (agrees : Agrees n) (p q : Part) (b : Bundle)
        → IsIn n q.table → ((u : Unit) → 0 < amount b u → IsDepositFor p.table q.table u)
        → IsTrusted (Deposit b) p q }
{}

/// No chain has more of a listed asset, burned ones included, than its supply, nor an instance more often than it is at homes.
pub fn law_of_stock_within_supply()
    ensures whole { (w : WorldView) (agrees : Agrees (tables_of w)) → Backed w
        → (k : ℕ) (p : Part) (row : AssetRow) → slice_get w k ≡ Some p → IsIn p.table.rows row
        → stock (asset_of_row p.table row) every p + burned (asset_of_row p.table row) p
        ≤ supply (asset_of_row p.table row) w }
    ensures instances { (w : WorldView) (agrees : Agrees (tables_of w)) → Backed w
        → (k : ℕ) (p : Part) (row : AssetRow) (instance : Instance)
        → slice_get w k ≡ Some p → IsIn p.table.rows row
        → stock (asset_of_row p.table row) (just (Some instance)) p
        ≤ population (asset_of_row p.table row) (just (Some instance)) w }
{}

/// A network in which no cause is found begins backed, with chains that agree, no instance at two homes, and checking accounts that cover what
/// there is elsewhere.
pub fn law_of_sound_first_worlds()
    ensures { (links : ChainEntry → List ChainId) (n : List ChainEntry)
        → IsNetwork (causes.entry_tables n) → ((k : ℕ) (e : ChainEntry) → slice_get n k ≡ Some e
        → HasInstancesOnce e) → first_cause n ≡ None → IsSoundFirst links n }
{}

/// Over any number of safe changes everything is kept, and no chain's stock of an asset, with what it burned, reaches 2^127.
pub fn law_of_repeated_safe_changes()
    ensures kept { (w v : WorldView) → Agrees (tables_of w) → History w v → SafeStep w v }
    ensures small { (w v : WorldView) → Agrees (tables_of w)
        → Backed w → ((a : UniversalAsset) → supply a w < 2 ^ 127) → History w v
        → (k : ℕ) (p : Part) (row : AssetRow) → slice_get v k ≡ Some p → IsIn p.table.rows row
        → stock (asset_of_row p.table row) every p + burned (asset_of_row p.table row) p < 2 ^ 127 }
{}

/// The oldest message is paid: a withdrawal from its sender's account, unit by unit, and a teleport from the checking account.
pub fn law_of_paid_oldest_messages()
    ensures withdrawal { (w : WorldView) (agrees : Agrees (tables_of w)) (b : Backed w) (i j : ℕ)
        (c r : Part) (at_i : slice_get w i ≡ Some c) (at_j : slice_get w j
        ≡ Some r) (x y : AssetRow) (x_in : IsIn c.table.rows x)
        (role : x.role ≡ Derivative (chain_of_part r)) (twins : AreTwins c.table r.table x y)
        (count : Count) (one : Option Instance) (picks : IsJust x.kind (choice_of count) one)
        (listed : AreHeldListed r.table r.held)
        (goods : Bundle) → front (chain_of_part r) c.outgoing ≡ Some (Withdrawal goods)
        → amount goods (Concrete x.id, one)
        ≤ amount r.held (sovereign_account (chain_of_part r) (chain_of_part c), (Concrete y.id, one)) }
    ensures teleport { (genesis w : WorldView) (i j : ℕ) (p q : Part) (a : UniversalAsset)
        (checking : ℕ) (cargo : Cargo) → IsKept genesis w
        → slice_get w i ≡ Some p → slice_get w j ≡ Some q → (i ≡ j → ⊥) → is_home a p.table ≡ true
        → front (chain_of_part q) p.outgoing ≡ Some cargo
        → checking_at a q ≡ Some checking → teleported p.table a every cargo ≤ checking }
{}

/// Where no cause is found, every world that safe changes lead to is conserved, backed, below 2^127 and has each instance once; each checking
/// account covers what there is at other homes and under way, and with what its chain has it is no more than at first, and below 2^128-1.
pub fn law_of_conserved_histories()
    ensures { (links : ChainEntry → List ChainId) (n : List ChainEntry)
        → IsNetwork (causes.entry_tables n)
        → ((k : ℕ) (e : ChainEntry) → slice_get n k ≡ Some e → HasInstancesOnce e)
        → ((a : UniversalAsset) → supply a (first_world_view links n) < 2 ^ 127)
        → ((k : ℕ) (e : ChainEntry) → slice_get n k ≡ Some e → HasLowAccounts e) → first_cause n
        ≡ None → (w : WorldView) → History (first_world_view links n) w → IsKept (first_world_view links n) w }
{}
