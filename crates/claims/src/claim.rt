// A claim: terms that keep their widths, which its type says.
ghost use Rattle.claims.specs.Widths.{Wide};

use crate::terms::Terms;

mod making;

#[derive(Clone, Copy)]
pub struct Claim {
    terms: Terms,
    ghost widths: { Wide terms },
}
