//! What each step of a lock with words tells. These types are for the proofs alone.
ghost use Rattle.turn_lock.specs.Word.{gave, doing};
ghost use Rattle.turn_lock.specs.Words.{saw_word, tried_word, knew, acted};
ghost use Rattle.std.specs.Prelude.{◌/◌, None, false};

use crate::rule::{Learns, Reads, Tells, WordRule};
use crate::seat::Doing;
use atomic_table::{Join, Play, Split};
use std::marker::PhantomData;

pub struct OnWordSight<R> {
    marker: PhantomData<R>,
}

impl<T, R: WordRule<T>> Play<T, Doing<R::Name, R::View>> for OnWordSight<R> {
    ghost then = { saw_word R.holds };
}

pub struct OnWordTake<M, R> {
    marker: PhantomData<(M, R)>,
}

impl<T, R: WordRule<T>, M: Tells<R::Name, T, R::View>> Play<T, Doing<R::Name, R::View>>
    for OnWordTake<M, R> {
    ghost then = { tried_word R.holds M.then };
}

pub struct OnTold {}

impl<T, N, V> Play<T, Doing<N, V>> for OnTold {
    ghost then = { knew };
}

pub struct OnWordLook<M> {
    marker: PhantomData<M>,
}

impl<T, N, V, M: Reads<N, V>> Play<T, Doing<N, V>> for OnWordLook<M> {
    ghost then = { acted (λ name v r w. M.then name v (r / 2) w) };
}

pub struct OnRead<M> {
    marker: PhantomData<M>,
}

impl<T, N, V, M: Reads<N, V>> Play<T, Doing<N, V>> for OnRead<M> {
    ghost then = { acted M.then };
}

pub struct OnWrite<L> {
    marker: PhantomData<L>,
}

impl<T, N, V, L: Learns<N, V>> Play<T, Doing<N, V>> for OnWrite<L> {
    ghost then = { acted (λ name v r w. L.then name v w) };
}

pub struct OnGive<M> {
    marker: PhantomData<M>,
}

impl<T, N, V, M: Tells<N, T, V>> Play<T, Doing<N, V>> for OnGive<M> {
    ghost then = { gave M.then };
}

pub struct OnSplit<M> {
    marker: PhantomData<M>,
}

impl<N, V, M: Split<V>> Split<Doing<N, V>> for OnSplit<M> {
    ghost left = { λ d. doing d.name false (M.left d.client) };

    ghost right = { λ d. doing d.name false (M.right d.client) };
}

pub struct OnJoin<M> {
    marker: PhantomData<M>,
}

impl<N, V, M: Join<V>> Join<Doing<N, V>> for OnJoin<M> {
    ghost both = { λ d e. doing d.name false (M.both d.client e.client) };

    ghost spent = { doing None false M.spent };
}
