//! The law of traders. The function has an empty body, and its contract is the law.
ghost use Rattle.weight_trader.specs.Laws.{PaymentsAreKept, RefundsArePaid, RefundsAreCovered, MovesAreKept, EndsAreKept, NewLinesAreWithinEnd, ExcessIsBooked, ExcessIsTold, OthersAreKept, PaymentsAreBooked, RowsAreKept, PurchasesAreMoves, RefusalsAreMoves};

/// Over any purchases, refunds and closings, payments are handed back, paid or booked, and what is given back or handed out is taken from
/// what is paid. What would pass 2^128-1 of what is paid is what the book then has more as saturated, which `excess_of` tells before;
/// nothing is booked for another cause, and the book's rows stay. Each call of `buy` is such a purchase, also where it is refused.
pub fn law_of_conserved_payments()
    ensures payments { PaymentsAreKept }
    ensures refunds { RefundsArePaid }
    ensures covered { RefundsAreCovered }
    ensures moves { MovesAreKept }
    ensures ends { EndsAreKept }
    ensures new_ends { NewLinesAreWithinEnd }
    ensures excess { ExcessIsBooked }
    ensures told { ExcessIsTold }
    ensures others { OthersAreKept }
    ensures booked { PaymentsAreBooked }
    ensures rows { RowsAreKept }
    ensures purchases { PurchasesAreMoves }
    ensures refusals { RefusalsAreMoves }
{}
