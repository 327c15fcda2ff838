// The theory of flows that serve ranked nodes in the order of their ranks. The definitions and the theorems stand in
// specs/, and each function here states theorems in its contract, so that the crate is proved only with them.
#![tactic(auto)]

ghost use Rattle.flow.specs.Checker.{CertifiedFirst, CertifiedMost};
ghost use Rattle.flow.specs.Example.{ExampleServed};
ghost use Rattle.flow.specs.Pushing.{Augments, Bounded, NothingFlows, PushCarries, WalkCarries};
ghost use Rattle.flow.specs.Theory.{AllGreatest, BestExists, Certificate, FirstGreatest, FirstUnique, GreatestBottleneck, Lexicographic, Nested, OneBottleneck, SmallestCut, WeakDuality};

// An arc leads from its tail to its head, and carries at most its capacity. The theory is about lists of these.
#[derive(Clone, Copy, Default, Drop)]
pub struct Arc {
    pub tail: u16,
    pub head: u16,
    pub capacity: u32,
}

// No flow brings more to the ranks below k than a cut for k is wide.
pub fn weak_duality()
    ensures { WeakDuality }
{}

// A settled cut shows a flow to be greatest and itself to be narrowest, and the smallest settled set lies in each
// narrowest cut, whichever greatest flow it belongs to.
pub fn settled_cuts()
    ensures certificate { Certificate }
    ensures smallest { SmallestCut }
    ensures same { OneBottleneck }
{}

// The settled cuts are nested; a flow with one for each k is greatest for all k at once, and so serves the ranks in
// their order.
pub fn ranks_in_order()
    ensures nested { Nested }
    ensures greatest { AllGreatest }
    ensures lexicographic { Lexicographic }
{}

// A push along a residual walk carries its amount from the walk's start to its end, and leaves a flow. Pushing begins
// with nothing, and no flow brings more than leaves the source.
pub fn push_along_a_walk()
    ensures step { PushCarries }
    ensures walk { WalkCarries }
    ensures augments { Augments }
    ensures start { NothingFlows }
    ensures bound { Bounded }
{}

// Every sound network has a flow that is greatest for each k at once; a greatest flow is as large as a narrowest cut is
// wide; and to serve the ranks in their order is to be greatest for each k, which settles what each rank is granted.
pub fn best_flow_exists()
    ensures exists { BestExists }
    ensures bottleneck { GreatestBottleneck }
    ensures greatest { FirstGreatest }
    ensures unique { FirstUnique }
{}

// A test that computes: loads and cuts that pass it are a greatest flow and serve the ranks in their order.
pub fn certificate_checker()
    ensures most { CertifiedMost }
    ensures first { CertifiedFirst }
{}

// An example with three ranks, by the checker.
pub fn example_is_served()
    ensures { ExampleServed }
{}
