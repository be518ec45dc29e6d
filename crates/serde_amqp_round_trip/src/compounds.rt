//! Lists, tuples and maps in the order of their keys.
ghost use Rattle.std.specs.Prelude.{◌∷◌, []};
ghost use Rattle.serde_amqp_de.specs.Again.{list_same_item, sequence_again, tuple_same_item, tuple_again};
ghost use Rattle.serde_amqp_de.specs.Again.{one_faithful, two_faithful, three_faithful, four_faithful};
ghost use Rattle.serde_amqp_de.specs.SortedLaws.{sorted_same, sorted_again};

use crate::values::{Faithful, RoundTrip};
use serde_amqp_de::SortedKey;
use std::collections::BTreeMap;

impl<T: RoundTrip + Drop> RoundTrip for Vec<T> {
    ghost same = { λ v. list_same_item T.Serialize.item T.Deserialize.item T.same v.items };

    ghost again = { λ v. sequence_again T.take T.Deserialize.item T.again v.items };
}

impl<A: RoundTrip + Drop> RoundTrip for (A,) {
    ghost same = { λ p. tuple_same_item (A.Serialize.item p.0 ∷ []) (A.Deserialize.item p.0 ∷ []) (A.same p.0, tt) };

    ghost again = { λ p. tuple_again (A.take ∷ []) (A.Deserialize.item p.0 ∷ []) (A.again p.0, tt) };
}

impl<A: Faithful + Drop> Faithful for (A,) {
    ghost faithful = { one_faithful A.Deserialize.item A.faithful };
}

impl<A: RoundTrip + Drop, B: RoundTrip + Drop> RoundTrip for (A, B) {
    ghost same = { λ p. tuple_same_item
        (A.Serialize.item p.0 ∷ B.Serialize.item p.1 ∷ [])
        (A.Deserialize.item p.0 ∷ B.Deserialize.item p.1 ∷ [])
        (A.same p.0, (B.same p.1, tt)) };

    ghost again = { λ p. tuple_again (A.take ∷ B.take ∷ [])
        (A.Deserialize.item p.0 ∷ B.Deserialize.item p.1 ∷ [])
        (A.again p.0, (B.again p.1, tt)) };
}

impl<A: Faithful + Drop, B: Faithful + Drop> Faithful for (A, B) {
    ghost faithful = { two_faithful A.Deserialize.item B.Deserialize.item A.faithful B.faithful };
}

impl<A: RoundTrip + Drop, B: RoundTrip + Drop, C: RoundTrip + Drop> RoundTrip for (A, B, C) {
    ghost same = { λ p. tuple_same_item
        (A.Serialize.item p.0 ∷ B.Serialize.item p.1 ∷ C.Serialize.item p.2 ∷ [])
        (A.Deserialize.item p.0 ∷ B.Deserialize.item p.1 ∷ C.Deserialize.item p.2 ∷ [])
        (A.same p.0, (B.same p.1, (C.same p.2, tt))) };

    ghost again = { λ p. tuple_again (A.take ∷ B.take ∷ C.take ∷ [])
        (A.Deserialize.item p.0 ∷ B.Deserialize.item p.1 ∷ C.Deserialize.item p.2 ∷ [])
        (A.again p.0, (B.again p.1, (C.again p.2, tt))) };
}

impl<A: Faithful + Drop, B: Faithful + Drop, C: Faithful + Drop> Faithful for (A, B, C) {
    ghost faithful = { three_faithful A.Deserialize.item B.Deserialize.item C.Deserialize.item
        A.faithful B.faithful C.faithful };
}

impl<A: RoundTrip + Drop, B: RoundTrip + Drop, C: RoundTrip + Drop, D: RoundTrip + Drop> RoundTrip
    for (A, B, C, D) {
    ghost same = { λ p. tuple_same_item
        (A.Serialize.item p.0 ∷ B.Serialize.item p.1 ∷ C.Serialize.item p.2 ∷ D.Serialize.item p.3 ∷ [])
        (A.Deserialize.item p.0 ∷ B.Deserialize.item p.1 ∷ C.Deserialize.item p.2 ∷ D.Deserialize.item p.3 ∷ [])
        (A.same p.0, (B.same p.1, (C.same p.2, (D.same p.3, tt)))) };

    ghost again = { λ p. tuple_again (A.take ∷ B.take ∷ C.take ∷ D.take ∷ [])
        (A.Deserialize.item p.0 ∷ B.Deserialize.item p.1 ∷ C.Deserialize.item p.2 ∷ D.Deserialize.item p.3 ∷ [])
        (A.again p.0, (B.again p.1, (C.again p.2, (D.again p.3, tt)))) };
}

impl<A: Faithful + Drop, B: Faithful + Drop, C: Faithful + Drop, D: Faithful + Drop> Faithful
    for (A, B, C, D) {
    ghost faithful = { four_faithful A.Deserialize.item B.Deserialize.item C.Deserialize.item D.Deserialize.item
        A.faithful B.faithful C.faithful D.faithful };
}

impl<K: SortedKey + RoundTrip + Drop, V: RoundTrip + Drop> RoundTrip for BTreeMap<K, V> {
    ghost same = { λ m. sorted_same K.cmp K.Serialize.item K.Deserialize.item V.Serialize.item V.Deserialize.item
        K.same V.same m.entries };

    ghost again = { λ m. sorted_again K.cmp K.take V.take K.Deserialize.item V.Deserialize.item
        K.total K.ordered K.again V.again m.entries };
}
