//! One clock of a slice. Each part of the data sheet's table is a function of its own.

ghost use Rattle.std.specs.Prelude.{◌≡◌, ℕ, Bool, ◌<◌, IsTrue, if◌then◌else◌};
ghost use Rattle.cpe_slice.specs.Registers.{AllBelow};
ghost use Rattle.cpe_slice.specs.FunctionCode.{is_shift};
ghost use Rattle.cpe_slice.specs.WordStep.{source_word, masked_word, operand_a, operand_b, logic_word, test_word, mar_after, registers_after, result_word, link, array_step, bit, inputs_of};

use crate::function_code::Fn7;
use crate::register::Reg;
use crate::slice::Slice;

/// What one clock of a slice gives.
#[derive(Clone, Copy, PartialEq, Eq, Debug)]
pub struct SliceOut {
    /// The registers after the clock.
    pub slice: Slice,
    /// Carry out; false in the right shift, which disables it. In functions 6 and 7 it is this project's own choice.
    pub co: bool,
    /// Right out, the bit that the right shift hands to the slice below; false outside the shift, where it is disabled.
    pub ro: bool,
}

// The choice among functions 4, 5, 6 and 7.
macro_rules! logic_cases {
    ($code:expr, $and:expr, $and_mask:expr, $or:expr, $exclusive_nor:expr) => {
        match $code.function() {
            4 => $and,
            5 => $and_mask,
            6 => $or,
            _ => $exclusive_nor,
        }
    };
}

impl Slice {
    /// One clock of the slice. Every register is read as it stood before the clock.
    ///
    /// `k`, `m` and `i` are the buses, each 0 to 3, `ci` is carry in, and `li` is left in, the bit that the right
    /// shift takes from the slice above. The right shift is modelled for a K bus of 0 alone
    /// (this project's own choice).
    #[tactic(auto, unfolding(crate::specs::WordStep::array_step))]
    pub fn step(&self, f: Fn7, k: u8, m: u8, i: u8, ci: bool, li: bool) -> SliceOut
        requires buses { (k < 4) × (m < 4) × (i < 4) }
        requires shift_mask { IsTrue (is_shift f) → k ≡ 0 }
        ensures slice { result.slice ≡ (array_step 1 f (inputs_of k m i ci li) self.now).registers }
        ensures below { AllBelow 4 result.slice }

        // FI of one slice is that slice's link.
        ensures co { bit result.co ≡ (if is_shift f then 0 else (array_step 1 f (inputs_of k m i ci li) self.now).fi) }
        ensures ro { bit result.ro ≡ (if is_shift f then (array_step 1 f (inputs_of k m i ci li) self.now).fi else 0) }
    {
        let (result, co, ro) = self.outputs(f, k, m, i, ci, li);
        let mar = self.mar_after(f, k, m);
        let mut slice = *self;
        slice.put_result(f, result);
        slice.set_mar(mar);
        SliceOut { slice, co, ro }
    }

    // The result, CO and RO.
    #[tactic(auto, using(crate::proofs::TwoBits::two_bits, crate::proofs::Cases::result_shift), unfolding(crate::specs::FunctionCode::is_shift))]
    fn outputs(&self, f: Fn7, k: u8, m: u8, i: u8, ci: bool, li: bool) -> (u8, bool, bool)
        requires { (k < 4) × (m < 4) × (i < 4) }
        ensures value { result.0 ≡ result_word 1 f (inputs_of k m i ci li) self.now }
        ensures co { bit result.1 ≡ (if is_shift f then 0 else link 1 f (inputs_of k m i ci li) self.now 0) }
        ensures ro { bit result.2 ≡ (if is_shift f then link 1 f (inputs_of k m i ci li) self.now 0 else 0) }
        ensures below { result.0 < 4 }
    {
        if f.is_shift() {
            let source = self.source_word(f, m);
            (source / 2 + 2 * u8::from(li), false, source % 2 == 1)
        } else if f.function() < 4 {
            let (a, b) = self.operands(f, k, m, i);
            let sum = a + b + u8::from(ci);
            (sum % 4, sum >= 4, false)
        } else {
            (
                self.logic_word(f, k, m, i),
                ci | (self.test_word(f, k, m, i) != 0),
                false,
            )
        }
    }

    // The operands of the sum in functions 0 to 3.
    #[tactic(auto, using(crate::proofs::TwoBits::two_bits), unfolding(crate::specs::WordStep::operand_a, crate::specs::WordStep::operand_b))]
    fn operands(&self, f: Fn7, k: u8, m: u8, i: u8) -> (u8, u8)
        requires { (k < 4) × (m < 4) × (i < 4) }
        ensures first { (ci li : Bool) → result.0 ≡ operand_a 3 f (inputs_of k m i ci li) self.now }
        ensures second { (ci li : Bool) → result.1 ≡ operand_b 3 f (inputs_of k m i ci li) self.now }
        ensures below { (result.0 < 4) × (result.1 < 4) }
    {
        let source = self.source_word(f, m);
        match f.function() {
            1 if f.group() == 3 => ((3 - source) | k, source & k),
            1 => (source, k),
            2 => (self.masked_word(f, k, i), 3),
            _ => (source, self.masked_word(f, k, i)),
        }
    }

    // The result of functions 4 to 7.
    #[tactic(auto, using(crate::proofs::TwoBits::two_bits), unfolding(crate::specs::WordStep::logic_word))]
    fn logic_word(&self, f: Fn7, k: u8, m: u8, i: u8) -> u8
        requires { (k < 4) × (m < 4) × (i < 4) }
        ensures value { (ci li : Bool) → result ≡ logic_word 3 f (inputs_of k m i ci li) self.now }
        ensures below { result < 4 }
    {
        let source = self.source_word(f, m);
        let masked = self.masked_word(f, k, i);
        logic_cases!(
            f,
            source & masked,
            k & source,
            source | masked,
            3 - (source ^ masked)
        )
    }

    // The word whose bits functions 4 to 7 or into CO.
    #[tactic(auto, using(crate::proofs::TwoBits::two_bits), unfolding(crate::specs::WordStep::test_word))]
    fn test_word(&self, f: Fn7, k: u8, m: u8, i: u8) -> u8
        requires { (k < 4) × (m < 4) × (i < 4) }
        ensures value { (ci li : Bool) → result ≡ test_word f (inputs_of k m i ci li) self.now }
        ensures below { result < 4 }
    {
        let source = self.source_word(f, m);
        let masked = self.masked_word(f, k, i);
        logic_cases!(f, source & masked, k & source, masked, source & masked)
    }

    // Rn (R0 to R9, T or AC), M or AT (T or AC), by the group.
    #[tactic(auto, unfolding(crate::specs::WordStep::source_word))]
    fn source_word(&self, f: Fn7, m: u8) -> u8
        requires { m < 4 }
        ensures value { result ≡ source_word f m self.now }
        ensures below { result < 4 }
    {
        if f.group() == 2 {
            m
        } else {
            self.get(f.register())
        }
    }

    // AC or the I bus, by the group, under the mask K.
    #[tactic(auto, using(crate::proofs::TwoBits::two_bits), unfolding(crate::specs::WordStep::masked_word))]
    fn masked_word(&self, f: Fn7, k: u8, i: u8) -> u8
        requires { i < 4 }
        ensures value { result ≡ masked_word f k i self.now }
        ensures below { result < 4 }
    {
        let word = if f.group() == 3 { i } else { self.get(Reg::Ac) };
        word & k
    }

    // What MAR holds after the clock.
    #[tactic(auto, using(crate::proofs::TwoBits::two_bits), unfolding(crate::specs::WordStep::mar_after))]
    fn mar_after(&self, f: Fn7, k: u8, m: u8) -> u8
        requires { (k < 4) × (m < 4) }
        ensures value { (i : ℕ) (ci li : Bool) → result ≡ mar_after f (inputs_of k m i ci li) self.now }
        ensures below { result < 4 }
    {
        if f.function() == 1 && f.group() != 3 {
            k | self.source_word(f, m)
        } else {
            self.mar()
        }
    }

    // Puts the result where the code says.
    #[tactic(auto, unfolding(crate::specs::WordStep::registers_after))]
    fn put_result(&mut self, f: Fn7, value: u8)
        requires { value < 4 }
        ensures { self.new ≡ registers_after f value self.old }
    {
        self.set(f.register(), value);
        if f.function() == 0 && f.group() == 1 {
            self.set(Reg::Ac, value);
        }
    }
}
