//! The fault of a shape, of what refuses a step of its expansion.
ghost use Rattle.std.specs.Prelude.{◌≡◌};
ghost use Rattle.cga_expand.specs.Faults.{faulted, of_expr, of_flat, of_overflow, of_scope, of_solid, of_split};

use cga_comp::FlatScope;
use cga_expr::ExprFault;
use cga_fraction::Overflow;
use cga_frame::ScopeFault;
use cga_shape::ShapeFault;
use cga_solid::SolidFault;
use cga_split::SplitFault;

pub(crate) fn or_overflow<A>(outcome: Result<A, Overflow>) -> Result<A, ShapeFault>
    ensures { result ≡ faulted of_overflow outcome }
{
    match outcome {
        Ok(value) => Ok(value),
        Err(Overflow) => Err(ShapeFault::Overflow),
    }
}

pub(crate) fn or_expr<A>(outcome: Result<A, ExprFault>) -> Result<A, ShapeFault>
    ensures { result ≡ faulted of_expr outcome }
{
    match outcome {
        Ok(value) => Ok(value),
        Err(ExprFault::Overflow) => Err(ShapeFault::Overflow),
        Err(ExprFault::ZeroDivide) => Err(ShapeFault::ZeroDivide),
    }
}

pub(crate) fn or_scope<A>(outcome: Result<A, ScopeFault>) -> Result<A, ShapeFault>
    ensures { result ≡ faulted of_scope outcome }
{
    match outcome {
        Ok(value) => Ok(value),
        Err(ScopeFault::NegativeSize) => Err(ShapeFault::NegativeSize),
        Err(ScopeFault::Overflow) => Err(ShapeFault::Overflow),
    }
}

pub(crate) fn or_split<A>(outcome: Result<A, SplitFault>) -> Result<A, ShapeFault>
    ensures { result ≡ faulted of_split outcome }
{
    match outcome {
        Ok(value) => Ok(value),
        Err(SplitFault::FlatScope) => Err(ShapeFault::FlatScope),
        Err(SplitFault::PartNotPositive) => Err(ShapeFault::PartNotPositive),
        Err(SplitFault::SubdivSum) => Err(ShapeFault::SubdivSum),
        Err(SplitFault::RepeatCount) => Err(ShapeFault::RepeatCount),
        Err(SplitFault::Overflow) => Err(ShapeFault::Overflow),
    }
}

pub(crate) fn or_flat<A>(outcome: Result<A, FlatScope>) -> Result<A, ShapeFault>
    ensures { result ≡ faulted of_flat outcome }
{
    match outcome {
        Ok(value) => Ok(value),
        Err(FlatScope) => Err(ShapeFault::FlatScope),
    }
}

pub(crate) fn or_solid<A>(outcome: Result<A, SolidFault>) -> Result<A, ShapeFault>
    ensures { result ≡ faulted of_solid outcome }
{
    match outcome {
        Ok(value) => Ok(value),
        Err(SolidFault::FlatScope) => Err(ShapeFault::FlatScope),
        Err(SolidFault::Overflow) => Err(ShapeFault::Overflow),
    }
}
