//! What holds of the definitions themselves.
ghost use Rattle.report_text.specs.Listed.{AreNativeAssetsSorted, HasHomes};

/// The assets that have a line in the supply block are in order, each once, and they are just those that are at home at some chain.
pub fn law_of_natives()
    ensures in_order { AreNativeAssetsSorted }
    ensures homes { HasHomes }
{}
