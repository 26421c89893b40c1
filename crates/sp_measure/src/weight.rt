// The weight of a link by the costs of its last probes.
ghost use Rattle.std.specs.Prelude.{◌≡◌, ◌≤◌, All, length};
ghost use Rattle.sp_base.specs.declared.limits.TheConstants.{MAX_WEIGHT};
ghost use Rattle.sp_measure.specs.Costs.{weight_of};
ghost use Rattle.sp_measure.specs.declared.opening.TheConstants.{MAX_COST};

/// Of how many costs a weight is made: those of the last probes that were closed.
pub const WEIGHED_COSTS: usize = 32;

/// The greater of the minimum and the mean of these costs, without its fraction.
pub fn weight_of(costs: &[u32], minimum: u32) -> u32
    requires count { length costs.now ≡ WEIGHED_COSTS }
    requires costs { All (λ cost. cost ≤ MAX_COST) costs.now }
    requires minimum { (1 ≤ minimum) × (minimum ≤ MAX_WEIGHT) }
    ensures weight { result ≡ weight_of costs.now minimum }
    ensures range { (minimum ≤ result) × (result ≤ MAX_WEIGHT) }
{
    let mut sum = 0u64;
    'costs: for cost in costs {
        sum += u64::from(*cost);
    }
    minimum.max((sum / WEIGHED_COSTS as u64) as u32)
}
