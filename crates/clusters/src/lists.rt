// The reference and the two lists, which are read together.
ghost use Rattle.bases.specs.Letter.{bases_of};
ghost use Rattle.clusters.specs.Heads.{Ready, start_heads};
ghost use Rattle.clusters.specs.ReadyOnce.{Ready-prop};

// A reference and two lists that a walk can read from their first records on.
#[derive(Clone, Copy)]
pub struct Lists<'a> {
    pub reference: &'a [u8],
    pub first: &'a [u8],
    pub second: &'a [u8],
    pub ghost ready: { Ready (bases_of reference.now) first.now second.now (start_heads first.now second.now) } by { Ready-prop _ _ _ _ },
}
