//! The numbers behind the limits, and the words of operations. The contract of each function is the
//! law.
ghost use Rattle.std.specs.Prelude.{ℕ, ◌≡◌, ◌^◌, ◌↔◌, List, Some};
ghost use Rattle.phase_base.specs.declared.limits.TheConstants.{BOUND_MAX, MEMBERS_MAX, PHASES_MAX, SENDS_MAX};
ghost use Rattle.phase_base.specs.OperationWords.{operation_of, operation_word};
ghost use Rattle.phase_base.specs.declared.operation.Op.{Op};

/// The limits of a phaser as numbers.
pub fn limits()
    ensures bound { BOUND_MAX ≡ 65536 }
    ensures phases { PHASES_MAX ≡ 2 ^ 62 }
    ensures members { MEMBERS_MAX ≡ 1024 }
    ensures sends { SENDS_MAX ≡ 65536 }
{}

/// A word stands for an operation exactly where it is that operation's word.
pub fn operations_have_one_word()
    ensures { (word : List ℕ) (op : Op)
        → (operation_of word ≡ Some op) ↔ (word ≡ operation_word op) }
{}
