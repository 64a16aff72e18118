// Outsides of one kind, put among those of both.
ghost use Rattle.std.specs.Prelude.{◌≡◌, ◌≤◌, ◌+◌, ◌++◌, map, vec_len, vec_capacity};
ghost use Rattle.real_world.specs.declared.outside.Either.TheVariants.{Once, Serve};

use super::Either;

/// Puts those over standard input where there is room for them.
pub(crate) fn put_once<A, B>(outs: Vec<Either<A, B>>, entered: Vec<A>) -> Vec<Either<A, B>>
    requires room { vec_len outs + vec_len entered ≤ vec_capacity outs }
    ensures items { result.items ≡ outs.items ++ map Once entered.items }
    ensures len { vec_len result ≡ vec_len outs + vec_len entered }
{
    let mut outs = outs;
    let mut entered = entered.into_iter();
    while let Some(one) = entered.next() {
        outs.push_reserved(Either::Once(one));
    }
    entered.destroy_empty();
    outs
}

/// Puts those over sockets where there is room for them.
pub(crate) fn put_loops<A, B>(outs: Vec<Either<A, B>>, entered: Vec<B>) -> Vec<Either<A, B>>
    requires room { vec_len outs + vec_len entered ≤ vec_capacity outs }
    ensures items { result.items ≡ outs.items ++ map Serve entered.items }
    ensures len { vec_len result ≡ vec_len outs + vec_len entered }
{
    let mut outs = outs;
    let mut entered = entered.into_iter();
    while let Some(one) = entered.next() {
        outs.push_reserved(Either::Serve(one));
    }
    entered.destroy_empty();
    outs
}
