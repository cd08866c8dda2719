//! What exchanges keep: laws, as the contracts of functions that do nothing.
ghost use Rattle.std.specs.Prelude.{◌≡◌, ℕ, ◌+◌, ◌<◌, ◌^◌, Bool, List, Option, Some};
ghost use Rattle.amounts.specs.Amounts.{amount, total};
ghost use Rattle.asset_lists.specs.declared.units.Asset.{Asset};
ghost use Rattle.asset_lists.specs.Units.{Unit};
ghost use Rattle.asset_lists.specs.Listed.{Listed};
ghost use Rattle.asset_bundles.specs.Bundles.{Bundle, held_assets};
ghost use Rattle.asset_bundles.specs.Books.{AreListed};
ghost use Rattle.trust_tables.specs.Accounts.{IsSovereign};
ghost use Rattle.ledgers.specs.Ledgers.{Holder, Held};
ghost use Rattle.asset_pools.specs.declared.pool.Pool.{Pool};
ghost use Rattle.asset_pools.specs.declared.exchanges.Exchange.{Exchange};
ghost use Rattle.asset_pools.specs.Exchanges.{pool_account, exchange_of, held_after, goods_after};
ghost use Rattle.asset_pools.specs.Spending.{ArePoolsListed, IsSpeaker, Spends};

/// No two pools have one account, and none is the account of a whole chain.
pub fn law_of_pool_accounts()
    ensures one { (m n : ℕ) → m < 2 ^ 32 → n < 2 ^ 32 → pool_account m ≡ pool_account n → m ≡ n }
    ensures no_chain { (n : ℕ) → IsSovereign (pool_account n) → ⊥ }
{}

/// An exchange that is made keeps what accounts and goods have together of each unit. Of accounts it lowers the pool's alone, and no pool's
/// product falls, where there are at most 2^32. What comes of it is listed.
pub fn law_of_exchanges()
    ensures kept { (pools : List Pool) (held : Held) (give : Bundle) (want : List Asset)
        (maximal : Bool) (e : Exchange)
        → exchange_of pools held (held_assets give) want maximal ≡ Some e
        → (t : Unit → Bool)
        → total (λ (h : Holder). t h.1) (held_after e held) + total t (goods_after e give)
        ≡ total (λ (h : Holder). t h.1) held + total t give }
    ensures spends { (pools : List Pool) (held : Held) (give : Bundle) (want : List Asset)
        (maximal : Bool) (e : Exchange)
        → exchange_of pools held (held_assets give) want maximal ≡ Some e
        → (speaker : Option (List ℕ))
        → Spends (IsSpeaker speaker) pools held (held_after e held) }
    ensures listed { (pools : List Pool) (held : Held) (give : Bundle) (want : List Asset)
        (maximal : Bool) (e : Exchange)
        → exchange_of pools held (held_assets give) want maximal ≡ Some e
        → (listed : List Listed) → ArePoolsListed listed pools → AreListed listed give
        → AreListed listed (goods_after e give) }
{}

/// Changes one after another lower what each of them may; one that lowers the speaker's account alone is one of them.
pub fn law_of_spending()
    ensures after { (speaker : Option (List ℕ)) (pools : List Pool) (a b c : Held)
        → Spends (IsSpeaker speaker) pools a b → Spends (IsSpeaker speaker) pools b c
        → Spends (IsSpeaker speaker) pools a c }
    ensures others { (speaker : Option (List ℕ)) (pools : List Pool) (old new : Held)
        → ((who : List ℕ) (unit : Unit)
        → amount new (who, unit) < amount old (who, unit) → IsSpeaker speaker who)
        → Spends (IsSpeaker speaker) pools old new }
{}
