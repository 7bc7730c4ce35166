ghost use Rattle.std.specs.Prelude.{◌≡◌, ◌++◌, flat_map};
ghost use Rattle.cga_check.specs.Uses as spec;
ghost use Rattle.cga_check.specs.Sifting.{sifted};

use super::expr::sift_expr;
use super::{Sieve, sift_one};
use crate::usage::Use;
use cga_rule::{Body, Expr, Item, Size};

#[cycle(item)]
#[tactic(auto, using(crate::proofs::Layers::items))]
pub(super) fn sift_items<S: Sieve>(items: &[Item], sieve: &S) -> Result<(), Use>
    ensures { result ≡ sifted (S.is_caught sieve.now) (flat_map spec.item_uses items.now) }
{
    for item in items {
        sift_item(item, sieve)?;
    }
    Ok(())
}

#[cycle(item)]
#[tactic(auto, using(crate::proofs::Layers::items))]
fn sift_body<S: Sieve>(body: &Body, sieve: &S) -> Result<(), Use>
    ensures { result ≡ sifted (S.is_caught sieve.now) (spec.body_uses body.now) }
{
    sift_items(body.items.as_slice(), sieve)
}

#[cycle(item)]
#[tactic(auto, using(crate::proofs::Layers::items))]
fn sift_bodies<S: Sieve>(bodies: &[Body], sieve: &S) -> Result<(), Use>
    ensures { result ≡ sifted (S.is_caught sieve.now) (flat_map spec.body_uses bodies.now) }
{
    for body in bodies {
        sift_body(body, sieve)?;
    }
    Ok(())
}

#[cycle(item)]
#[tactic(auto, using(crate::proofs::Layers::items))]
fn sift_item<S: Sieve>(item: &Item, sieve: &S) -> Result<(), Use>
    ensures { result ≡ sifted (S.is_caught sieve.now) (spec.item_uses item.now) }
{
    match item {
        Item::Move(x, y, z) => {
            sift_expr(x.get(), sieve)?;
            sift_expr(y.get(), sieve)?;
            sift_expr(z.get(), sieve)
        }
        Item::Resize(x, y, z) => {
            sift_size(x.get(), sieve)?;
            sift_size(y.get(), sieve)?;
            sift_size(z.get(), sieve)
        }
        Item::Rotate { .. } | Item::Solid(_) => Ok(()),
        Item::Scoped(items) => sift_items(items.as_slice(), sieve),
        Item::Subdiv { sizes, bodies, .. } => {
            sift_parts(sizes.as_slice(), bodies.len(), sieve)?;
            sift_bodies(bodies.as_slice(), sieve)
        }
        Item::Repeat { length, body, .. } => {
            sift_expr(length.get(), sieve)?;
            sift_body(body, sieve)
        }
        Item::Comp { body, .. } => sift_body(body, sieve),
        Item::Child { symbol, args } => {
            let child = Use::Child {
                symbol: *symbol,
                args: args.len(),
            };
            sift_one(child, sieve)?;
            sift_args(args.as_slice(), sieve)
        }
    }
}

#[tactic(auto, using(crate::proofs::Layers::items))]
fn sift_parts<S: Sieve>(sizes: &[Size], bodies: usize, sieve: &S) -> Result<(), Use>
    ensures { result ≡ sifted (S.is_caught sieve.now) (spec.parts_uses sizes.now bodies) }
{
    let parts = Use::Parts {
        sizes: sizes.len(),
        bodies,
    };
    sift_one(parts, sieve)?;
    sift_sizes(sizes, sieve)
}

#[tactic(auto, using(crate::proofs::Layers::items))]
fn sift_sizes<S: Sieve>(sizes: &[Size], sieve: &S) -> Result<(), Use>
    ensures { result ≡ sifted (S.is_caught sieve.now) (flat_map spec.size_uses sizes.now) }
{
    for size in sizes {
        sift_size(size, sieve)?;
    }
    Ok(())
}

#[tactic(auto, using(crate::proofs::Layers::items))]
fn sift_size<S: Sieve>(size: &Size, sieve: &S) -> Result<(), Use>
    ensures { result ≡ sifted (S.is_caught sieve.now) (spec.size_uses size.now) }
{
    match size {
        Size::Relative(_) => Ok(()),
        Size::Absolute(value) => sift_expr(value, sieve),
    }
}

#[tactic(auto, using(crate::proofs::Layers::items))]
fn sift_args<S: Sieve>(args: &[Expr], sieve: &S) -> Result<(), Use>
    ensures { result ≡ sifted (S.is_caught sieve.now) (flat_map spec.expr_uses args.now) }
{
    for arg in args {
        sift_expr(arg, sieve)?;
    }
    Ok(())
}
