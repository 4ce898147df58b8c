//! The top call: words, objects and a status.

ghost use Rattle.std.specs.Prelude.{◌≡◌};
ghost use Rattle.sg_connection.specs.Serving.{scene_at};
ghost use Rattle.sg_endings.specs.Ends.{Ends};
ghost use Rattle.sg_lines.specs.Reading.{side};
ghost use Rattle.sg_serve_command.specs.Serves.{Serves, door_at};
ghost use Rattle.sg_words.specs.Options.{texts};
ghost use Rattle.signage.specs.Words.{Names, NamesNone};
ghost use Rattle.signage.specs.Top.{Does, IsUsage, KeepsRows, LeavesAlone};

use crate::command::{Command, command_of};
use crate::previews::preview;
use crate::stop::{Stop, finish};
use sg_edit_command::edit;
use sg_keeper::Keeper;
use sg_outside::{Door, Sink, Source};
use sg_report_command::report;
use sg_serve_command::serve;
use std::alloc::Global;

/// The objects of the outside that commands work on.
#[derive(Drop)]
pub struct Outside<S, O, K, N> {
    pub source: S,
    pub out: O,
    pub keeper: K,
    pub door: N,
}

/// Does the one command that the words name, and answers its status: 2 where the words, which exclude the
/// program's name, aren't in the command table. Then the usage line is written and nothing but the sink is
/// used.
pub fn top<S: Source, O: Sink, K: Keeper, N: Door>(
    alloc: Global,
    words: &[String],
    outside: &mut Outside<S, O, K, N>,
) -> u8
    ensures usage { result ≡ 2 → NamesNone (texts words.now) }
    ensures run { (c : Command) → Names (texts words.now) c → Ends
        (Does (λ operator connections. Serves K.view
        (λ conn state. scene_at (N.Conn.left conn) (N.Conn.take_faults conn) (N.Conn.written conn)
        (N.Conn.put_faults conn) state) operator connections
        (door_at (N.coming outside.old.door) (N.back outside.old.door) (N.ended outside.old.door)
        (N.faults outside.old.door))
        (door_at (N.coming outside.new.door) (N.back outside.new.door) (N.ended outside.new.door)
        (N.faults outside.new.door))
        outside.old.keeper outside.new.keeper)
        c (side S.left S.take_faults outside.old.source)
        (side S.left S.take_faults outside.new.source)
        (K.view outside.old.keeper) (K.view outside.new.keeper))
        result (O.written outside.old.out) (O.written outside.new.out)
        (O.put_faults outside.old.out) (O.put_faults outside.new.out) }
    ensures alone { (c : Command) → Names (texts words.now) c → LeavesAlone c
        outside.old.source outside.new.source outside.old.keeper outside.new.keeper
        outside.old.door outside.new.door }
    ensures rows { (c : Command) → Names (texts words.now) c → KeepsRows c
        (K.view outside.old.keeper) (K.view outside.new.keeper) }
    ensures other { NamesNone (texts words.now) → Ends IsUsage
        result (O.written outside.old.out) (O.written outside.new.out)
        (O.put_faults outside.old.out) (O.put_faults outside.new.out) }
    ensures apart { NamesNone (texts words.now) → (outside.new.source ≡ outside.old.source)
        × (outside.new.keeper ≡ outside.old.keeper) × (outside.new.door ≡ outside.old.door) }
{
    match command_of(alloc, words) {
        Ok(Some(command)) => follow(alloc, &command, outside),
        Ok(None) => finish(&mut outside.out, Stop::Usage),
        Err(_) => finish(&mut outside.out, Stop::Memory),
    }
}

/// Does a command, and answers its status.
fn follow<S: Source, O: Sink, K: Keeper, N: Door>(
    alloc: Global,
    command: &Command,
    outside: &mut Outside<S, O, K, N>,
) -> u8
    ensures run { Ends
        (Does (λ operator connections. Serves K.view
        (λ conn state. scene_at (N.Conn.left conn) (N.Conn.take_faults conn) (N.Conn.written conn)
        (N.Conn.put_faults conn) state) operator connections
        (door_at (N.coming outside.old.door) (N.back outside.old.door) (N.ended outside.old.door)
        (N.faults outside.old.door))
        (door_at (N.coming outside.new.door) (N.back outside.new.door) (N.ended outside.new.door)
        (N.faults outside.new.door))
        outside.old.keeper outside.new.keeper)
        command.now (side S.left S.take_faults outside.old.source)
        (side S.left S.take_faults outside.new.source)
        (K.view outside.old.keeper) (K.view outside.new.keeper))
        result (O.written outside.old.out) (O.written outside.new.out)
        (O.put_faults outside.old.out) (O.put_faults outside.new.out) }
    ensures alone { LeavesAlone command.now
        outside.old.source outside.new.source outside.old.keeper outside.new.keeper
        outside.old.door outside.new.door }
    ensures rows { KeepsRows command.now (K.view outside.old.keeper) (K.view outside.new.keeper) }
{
    match command {
        Command::Preview(moments) => preview(
            alloc,
            moments.as_slice(),
            &mut outside.source,
            &mut outside.out,
        ),
        Command::Report(from, to) => report(
            alloc,
            *from,
            *to,
            &mut outside.out,
            &mut outside.keeper,
        ),
        Command::Edit => edit(
            alloc,
            &mut outside.source,
            &mut outside.out,
            &mut outside.keeper,
        ),
        Command::Serve(operator, connections) => serve(
            alloc,
            operator.as_slice(),
            *connections,
            &mut outside.out,
            &mut outside.door,
            &mut outside.keeper,
        ),
    }
}
