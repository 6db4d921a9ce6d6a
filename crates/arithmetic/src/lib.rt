// Numbers of 32 bits.
#![tactic(auto)]

ghost use Rattle.arithmetic.specs.Laws.{ReductionIsResidue, ReductionKeepsNumbers, OperationsAreResidues, OperationsStayInRange};
ghost use Rattle.arithmetic.specs.Laws.{SumsRegroup, DifferencesRegroup, ProductsRegroup, SumsCommute, ProductsCommute};
ghost use Rattle.arithmetic.specs.Laws.{DivisionsAreExact, LeastByMinusOne};
ghost use Rattle.arithmetic.specs.Operations.{sum, difference, product, divided};
ghost use Rattle.std.specs.Prelude.{◌≡◌};

use codes::Fault;

#[cfg(test)]
mod tests;

// The sum, reduced into range.
pub fn add(a: i32, b: i32) -> i32
    ensures { result ≡ sum a b }
{
    a.wrapping_add(b)
}

// The difference, reduced into range.
pub fn sub(a: i32, b: i32) -> i32
    ensures { result ≡ difference a b }
{
    a.wrapping_sub(b)
}

// The product, reduced into range.
pub fn mul(a: i32, b: i32) -> i32
    ensures { result ≡ product a b }
{
    a.wrapping_mul(b)
}

// The quotient, rounded towards zero and reduced into range, and the remainder.
pub fn div_rem(a: i32, b: i32) -> Result<(i32, i32), Fault>
    ensures { result ≡ divided a b }
{
    if b == 0 {
        return Err(Fault::ZeroDivisor);
    }
    Ok((a.wrapping_div(b), a.wrapping_rem(b)))
}

// A reduced number is the residue of what it was.
pub fn reduction_is_residue()
    ensures { ReductionIsResidue }
{}

// To reduce a number leaves it.
pub fn reduction_keeps_numbers()
    ensures { ReductionKeepsNumbers }
{}

// Sums, differences and products are the residues of the whole-number results.
pub fn operations_are_residues()
    ensures { OperationsAreResidues }
{}

// Sums, differences and products are numbers.
pub fn operations_stay_in_range()
    ensures { OperationsStayInRange }
{}

// To add one number and then another is to add their sum.
pub fn sums_regroup()
    ensures { SumsRegroup }
{}

// To subtract one number and then another is to subtract their sum.
pub fn differences_regroup()
    ensures { DifferencesRegroup }
{}

// To multiply by one number and then by another is to multiply by their product.
pub fn products_regroup()
    ensures { ProductsRegroup }
{}

// The order of the numbers does not matter to a sum.
pub fn sums_commute()
    ensures { SumsCommute }
{}

// The order of the numbers does not matter to a product.
pub fn products_commute()
    ensures { ProductsCommute }
{}

// What a quotient and a remainder are, wherever the divisor is not zero.
pub fn divisions_are_exact()
    ensures { DivisionsAreExact }
{}

// The least number divided by -1 is the least number, and leaves nothing.
pub fn least_by_minus_one()
    ensures { LeastByMinusOne }
{}
