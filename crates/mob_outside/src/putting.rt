//! Writes whole texts through the calls of a sink.
ghost use Rattle.std.specs.Prelude.{OnOk, OnErr, map};
ghost use Rattle.std.specs.List.{concat};
ghost use Rattle.std.specs.Io.KnownBytes.{Appends};
ghost use Rattle.mob_outside.specs.Faults.{HasCause};
ghost use Rattle.mob_outside.specs.Streams.{Puts, PutsPart};

use crate::{Failed, Sink};

/// Puts a whole text. After a failure, a proper prefix of it was put.
pub fn put_all<K: Sink>(sink: &mut K, text: &[u8]) -> Result<(), Failed>
    ensures whole { OnOk result (Appends (K.held sink.old) (K.held sink.new) text.now) }
    ensures part { OnErr result (PutsPart text.now (K.held sink.old) (K.held sink.new)) }
    ensures cause { HasCause (K.faults sink.old) (K.faults sink.new) result }
    ensures puts { Puts text.now (K.held sink.old) (K.held sink.new) (K.faults sink.old) (K.faults sink.new) }
{
    let mut at = 0;
    while at < text.len() {
        at += sink.put(&text[at..])?;
    }
    Ok(())
}

/// Puts texts one after another. After a failure, a proper prefix of their concatenation was put.
pub fn put_pieces<K: Sink>(sink: &mut K, pieces: &[&[u8]]) -> Result<(), Failed>
    ensures whole { OnOk result (Appends (K.held sink.old) (K.held sink.new) (concat (map (λ p. p.now) pieces.now))) }
    ensures part { OnErr result (PutsPart (concat (map (λ p. p.now) pieces.now)) (K.held sink.old) (K.held sink.new)) }
    ensures cause { HasCause (K.faults sink.old) (K.faults sink.new) result }
    ensures puts { Puts (concat (map (λ p. p.now) pieces.now)) (K.held sink.old) (K.held sink.new) (K.faults sink.old) (K.faults sink.new) }
{
    for piece in pieces {
        put_all(sink, piece)?;
    }
    Ok(())
}
