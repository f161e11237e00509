// What making room gives.
ghost use Rattle.std.specs.Prelude.{◌<◌, IfSome};
ghost use Rattle.std.proofs.Props.{props};

// The slot that is free now, and the page put out of it, if there is one, which is not NONE.
#[derive(Clone, Copy)]
pub struct Freed {
    pub slot: u32,
    pub out: Option<u32>,
    ghost real: { IfSome out (λ p. p < 4294967295) } by { Prim.hlevel props },
}
