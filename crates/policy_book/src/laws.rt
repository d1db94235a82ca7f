//! Laws of policies.
ghost use Rattle.std.specs.Prelude.{◌≡◌, ℕ, true};
ghost use Rattle.policy_book.specs.Operation.{is_operation};
ghost use Rattle.policy_book.specs.Policy.{Policy, IsWithinLimits, IsLegal, policy_after, first_policy};
ghost use Rattle.policy_book.specs.declared.op.AdminOp.{AdminOp};
ghost use Rattle.policy_book.specs.declared.limits.TheConstants.{MAX_OF_KIND, MAX_NUMBERS, MAX_NAMES};

/// The first policy is within the limits, and a legal operation, whose parts are in their ranges, leaves a policy within them.
pub fn kept_limits()
    ensures first { IsWithinLimits first_policy }
    ensures kept { (p : Policy) (version : ℕ) (op : AdminOp)
        → IsWithinLimits p → IsLegal p op → is_operation op ≡ true → IsWithinLimits (policy_after p version op) }
{}

/// The limits in numbers.
pub fn limits()
    ensures of_kind { MAX_OF_KIND ≡ 256 }
    ensures numbers { MAX_NUMBERS ≡ 16 }
    ensures names { MAX_NAMES ≡ 32 }
{}
