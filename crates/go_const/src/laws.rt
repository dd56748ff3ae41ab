//! Laws of the definition of constant values.
ghost use Rattle.std.specs.Prelude.{◌≡◌, ℕ, ◌+◌, ◌-◌, ◌%◌, ◌^◌, ◌<◌, min, max, false, ℤ, pos, neg_ℤ, ◌+ℤ◌, ◌*ℤ◌, unsigned_abs, int_div, int_rem, Bool, Some};
ghost use Rattle.go_model.specs.constants.Bits.{and_not_numbers, and_numbers, bit_of, complement, or_numbers, xor_numbers};
ghost use Rattle.go_model.specs.constants.Constants.{IsConstant, binary_value, converted, exact_shift, shift_value, unary_value};
ghost use Rattle.go_model.specs.declared.constants.value.Basic.{Basic};
ghost use Rattle.go_model.specs.declared.constants.value.BinaryOp.{BinaryOp};
ghost use Rattle.go_model.specs.declared.constants.value.Kind.{Kind};
ghost use Rattle.go_model.specs.declared.constants.value.Kind.TheVariants.{Typed};
ghost use Rattle.go_model.specs.declared.constants.value.UnaryOp.{UnaryOp};
ghost use Rattle.go_model.specs.declared.constants.value.Value.{Value};

/// The bitwise operators work on each bit by itself.
pub fn bits_by_themselves()
    ensures and { (x y : ℤ) (i : ℕ) → bit_of (and_numbers x y) i ≡ min (bit_of x i) (bit_of y i) }
    ensures or { (x y : ℤ) (i : ℕ) → bit_of (or_numbers x y) i ≡ max (bit_of x i) (bit_of y i) }
    ensures xor { (x y : ℤ) (i : ℕ) → bit_of (xor_numbers x y) i ≡ (bit_of x i + bit_of y i) % 2 }
    ensures and_not { (x y : ℤ) (i : ℕ) → bit_of (and_not_numbers x y) i ≡ min (bit_of x i) (1 - bit_of y i) }
    ensures complement { (x : ℤ) (i : ℕ) → bit_of (complement x) i ≡ 1 - bit_of x i }
{}

/// A quotient and its remainder give the left side back; the remainder has the sign of the left side, and
/// is smaller than the divisor.
pub fn quotient_and_remainder()
    ensures whole { (x y : ℤ) → int_div x y *ℤ y +ℤ int_rem x y ≡ x }
    ensures sign { (m : ℕ) (y : ℤ) → (int_rem (pos m) y ≡ pos (m % unsigned_abs y)) × (int_rem (neg_ℤ (pos m)) y ≡ neg_ℤ (pos (m % unsigned_abs y))) }
    ensures smaller { (x y : ℤ) → 0 < unsigned_abs y → unsigned_abs (int_rem x y) < unsigned_abs y }
{}

/// A right shift rounds down: what it leaves out is below 2^count.
pub fn shifts_round_down()
    ensures { (x : ℤ) (count : ℕ) → (rest : ℕ) × (rest < 2 ^ count) × (exact_shift false x count *ℤ pos (2 ^ count) +ℤ pos rest ≡ x) }
{}

/// What an operation gives is a constant's value of the kind.
pub fn results_are_of_the_kind()
    ensures unary { (op : UnaryOp) (value result : Value) (kind : Kind) (bits : ℕ) → unary_value op value kind bits ≡ Some result → IsConstant result kind bits }
    ensures binary { (op : BinaryOp) (left right result : Value) (kind : Kind) (bits : ℕ) → binary_value op left right kind bits ≡ Some result → IsConstant result kind bits }
    ensures shift { (left : Bool) (value count result : Value) (kind : Kind) (bits : ℕ) → shift_value left value count kind bits ≡ Some result → IsConstant result kind bits }
    ensures conversion { (value result : Value) (from : Kind) (to : Basic) (bits : ℕ) → converted value from to bits ≡ Some result → IsConstant result (Typed to) bits }
{}
