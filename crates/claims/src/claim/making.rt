// Making a claim from any numbers, and reading its terms.
ghost use Rattle.std.specs.Prelude.{◌≡◌};
ghost use Rattle.claims.specs.Widths.{Wide, made};
ghost use Rattle.claims.specs.Claims.{plain};

use super::Claim;
use crate::terms::{FIFTEEN_DIGITS, TEN_DIGITS, Terms};
use denials::Denial;

/// The claim with these terms, or the denial of a number outside its width.
impl TryFrom<Terms> for Claim {
    type Error = Denial;

    ghost try_from_gives = { λ terms told. plain told ≡ made terms };

    fn try_from(terms: Terms) -> Result<Claim, Denial> {
        if terms.biller > TEN_DIGITS
            || terms.account > FIFTEEN_DIGITS
            || terms.high > TEN_DIGITS
            || terms.low > TEN_DIGITS
            || terms.amount == 0
            || terms.amount > TEN_DIGITS
        {
            return Err(Denial::OutsideWidth);
        }
        Ok(Claim { terms })
    }
}

impl Claim {
    pub fn terms(&self) -> Terms
        ensures value { result ≡ self.now.terms }
        ensures widths { Wide result }
    {
        self.terms
    }
}
