//! Laws of the weights, each the contract of a call that does nothing.

ghost use Rattle.subtree_weights.specs.Sums.{AllSuspectsAreWeighed, OnlyWeightsAreSums, SuspectsAreWeighed};
ghost use Rattle.subtree_weights.specs.Sums.{WeightsAreSums, WeightsAreWithinAll};

/// What stands under a call is the sum of the weights of its children, and these sums are given by
/// the marks alone.
pub fn weights_are_sums()
    ensures sums { WeightsAreSums }
    ensures only { OnlyWeightsAreSums }
{}

/// All suspects are what the first call weighs, and those in the subtree of one of them what that
/// one weighs, which is itself at least.
pub fn weights_count_suspects()
    ensures all { AllSuspectsAreWeighed }
    ensures each { SuspectsAreWeighed }
    ensures within { WeightsAreWithinAll }
{}
