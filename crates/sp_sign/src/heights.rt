// The parameter set of a topology's height.
ghost use Rattle.std.specs.Prelude.{◌≡◌};
ghost use Rattle.sp_sign.specs.Heights.{param_of};

use sp_hss::LmsParam;
use sp_topology::LmsHeight;

/// The parameter set of the trees of this height (RFC 8554, section 5.1).
pub fn param_of(height: LmsHeight) -> LmsParam
    ensures { result ≡ param_of height }
{
    match height {
        LmsHeight::Five => LmsParam::H5,
        LmsHeight::Ten => LmsParam::H10,
    }
}
