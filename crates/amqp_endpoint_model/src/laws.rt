//! Laws of an endpoint's histories. A function here does nothing: its contract is the law, of every kind of sessions.
ghost use Rattle.std.specs.Prelude.{◌≡◌, ◌≢◌, ◌⊎◌, ℕ, List, Some, None};
ghost use Rattle.amqp_endpoint_model.specs.Relay.{Decides};
ghost use Rattle.amqp_endpoint_model.specs.Said.{Said, Told};
ghost use Rattle.amqp_endpoint_model.specs.State.{State, fresh};
ghost use Rattle.amqp_endpoint_model.specs.Step.{Step, refusal_of_settings};
ghost use Rattle.amqp_endpoint_model.specs.History.{AllHaveMemory, Framed, HasMemory, IsFront, KeepsLimit, Pieces, Run};
ghost use Rattle.amqp_endpoint_model.specs.History.{Summary, told_joined, feeds_joined, judge_limit, nothing, summary};
ghost use Rattle.amqp_endpoint_model.specs.declared.call.Call.{Call};
ghost use Rattle.amqp_endpoint_model.specs.declared.error.EndpointError.TheVariants.{Memory};
ghost use Rattle.amqp_endpoint_model.specs.declared.settings.Settings.{Settings};

use crate::relay::SessionRelay;

/// The frames stepped through since the latest `connect` are the pieces of all bytes fed since then, each once and in
/// order, up to a fault or the peer's Close, and the events are what these frames tell (part 2, 2.3).
pub fn pieces_of_all_bytes<S: SessionRelay>()
    ensures { (sessions : S) (settings : Settings) (calls : List Call) (told : List Told) (end : State S) →
        Run S.does (fresh settings sessions) calls told end →
        Pieces S.does settings.max_frame_size (summary nothing calls told) }
{}

/// Each answer of bytes is at most as long as the peer allows, as it is given: 512 bytes before the peer's Open, and its
/// max-frame-size behind it (part 2, 2.4.1, 2.7.1).
pub fn limit_kept<S: SessionRelay>()
    ensures { (sessions : S) (settings : Settings) (calls : List Call) (told : List Told) (end : State S) →
        refusal_of_settings settings ≡ None → Run S.does (fresh settings sessions) calls told end →
        KeepsLimit nothing calls told }
{}

/// Bytes decide which frames are stepped through: of two histories that were fed the same, however that was cut, and
/// whatever other calls came between, the frames of the one begin those of the other. Where one stopped before the
/// other its sessions refused a frame, or there was no memory.
pub fn bytes_decide<S: SessionRelay>()
    ensures { (limit : ℕ) (one other : Summary) (a : Framed S.does limit one) (b : Framed S.does limit other) →
        one.fed ≡ other.fed → IsFront a.frames b.frames ⊎ IsFront b.frames a.frames }
{}

/// Bytes of a peer give one limit: not two, and that there is none can't be.
pub fn judge_says_one_limit()
    ensures one { (bytes : List ℕ) (a b : ℕ) → judge_limit bytes a → judge_limit bytes b → a ≡ b }
    ensures some { (bytes : List ℕ) → ((limit : ℕ) → judge_limit bytes limit → ⊥) → ⊥ }
{}

/// What an endpoint answered to bytes that were cut somehow it may answer to them uncut: the same events in the same
/// order, the same first fault, and the same state behind them.
pub fn uncut<S: SessionRelay>()
    ensures { (old : State S) (calls : List Call) (told : List Told) (end : State S) →
        Run S.does old calls told end → AllHaveMemory told →
        Run S.does old (feeds_joined calls) (told_joined calls told) end }
{}

/// It does not matter how the bytes of adjacent feeds are cut, where the sessions before decide what a frame does: the
/// events, the first fault, and all that is answered and queued are the same, want of memory aside.
pub fn recut<S: SessionRelay>()
    ensures { (old : State S) (calls calls2 : List Call) (told told2 : List Told) (end end2 : State S) →
        Decides S.does → Run S.does old calls told end → Run S.does old calls2 told2 end2
        → feeds_joined calls ≡ feeds_joined calls2 → AllHaveMemory told → AllHaveMemory told2
        → (told_joined calls told ≡ told_joined calls2 told2) × (end ≡ end2) }
{}

/// The state decides what a call answers and where it leads, where the sessions before decide what a frame does: want
/// of memory aside.
pub fn step_decides<S: SessionRelay>()
    ensures { (old : State S) (call : Call) (a b : Said) (m n : State S) →
        Decides S.does → Step S.does old call a m → Step S.does old call b n → HasMemory a → HasMemory b
        → (a ≡ b) × (m ≡ n) }
{}
