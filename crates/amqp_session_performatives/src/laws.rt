//! Laws of what performatives are written as and read as. A function here does nothing: its contract is the law.
ghost use Rattle.std.specs.Prelude.{◌≡◌, Some};
ghost use Rattle.serde_amqp_item.specs.Canon.{AllWithin};
ghost use Rattle.serde_amqp_item.specs.Wire.{IsCapped};
ghost use Rattle.amqp_session_performatives.specs.Attach.{attach_item, attach_taken};
ghost use Rattle.amqp_session_performatives.specs.Begin.{begin_item, begin_taken};
ghost use Rattle.amqp_session_performatives.specs.Close.{close_item, close_taken};
ghost use Rattle.amqp_session_performatives.specs.Detach.{detach_item, detach_taken};
ghost use Rattle.amqp_session_performatives.specs.Disposition.{disposition_item, disposition_taken};
ghost use Rattle.amqp_session_performatives.specs.End.{end_item, end_taken};
ghost use Rattle.amqp_session_performatives.specs.Flow.{flow_item, flow_taken};
ghost use Rattle.amqp_session_performatives.specs.Open.{open_item, open_taken};
ghost use Rattle.amqp_session_performatives.specs.Performative.{performative_item, performative_taken};
ghost use Rattle.amqp_session_performatives.specs.Transfer.{transfer_item, transfer_taken};
ghost use Rattle.amqp_session_performatives.specs.Short.{IsShort, IsShortAttach, IsShortBegin, IsShortClose};
ghost use Rattle.amqp_session_performatives.specs.Short.{IsShortDetach, IsShortDisposition, IsShortEnd, IsShortFlow};
ghost use Rattle.amqp_session_performatives.specs.Short.{IsShortOpen, IsShortTransfer};
ghost use Rattle.amqp_session_performatives.specs.declared.attach.Attach.{Attach};
ghost use Rattle.amqp_session_performatives.specs.declared.begin.Begin.{Begin};
ghost use Rattle.amqp_session_performatives.specs.declared.close.Close.{Close};
ghost use Rattle.amqp_session_performatives.specs.declared.detach.Detach.{Detach};
ghost use Rattle.amqp_session_performatives.specs.declared.disposition.Disposition.{Disposition};
ghost use Rattle.amqp_session_performatives.specs.declared.end.End.{End};
ghost use Rattle.amqp_session_performatives.specs.declared.flow.Flow.{Flow};
ghost use Rattle.amqp_session_performatives.specs.declared.open.Open.{Open};
ghost use Rattle.amqp_session_performatives.specs.declared.performative.Performative.{Performative};
ghost use Rattle.amqp_session_performatives.specs.declared.transfer.Transfer.{Transfer};

/// What an open is written as is read as this open, two opens are written as two items, and no list, array or map of
/// one that is short is longer than may be read.
pub fn open_is_read_back()
    ensures same { (o : Open) → open_taken (open_item o) ≡ Some (open_item o) }
    ensures apart { (o p : Open) → open_item o ≡ open_item p → o ≡ p }
    ensures within_caps { (o : Open) → IsShortOpen o → AllWithin IsCapped (open_item o) }
{}

/// What a begin is written as is read as this begin, two begins are written as two items, and no list, array or map of
/// one that is short is longer than may be read.
pub fn begin_is_read_back()
    ensures same { (b : Begin) → begin_taken (begin_item b) ≡ Some (begin_item b) }
    ensures apart { (b c : Begin) → begin_item b ≡ begin_item c → b ≡ c }
    ensures within_caps { (b : Begin) → IsShortBegin b → AllWithin IsCapped (begin_item b) }
{}

/// What an attach is written as is read as this attach, two attaches are written as two items, and no list, array or map of
/// one that is short is longer than may be read.
pub fn attach_is_read_back()
    ensures same { (a : Attach) → attach_taken (attach_item a) ≡ Some (attach_item a) }
    ensures apart { (a b : Attach) → attach_item a ≡ attach_item b → a ≡ b }
    ensures within_caps { (a : Attach) → IsShortAttach a → AllWithin IsCapped (attach_item a) }
{}

/// What a flow is written as is read as this flow, two flows are written as two items, and no list, array or map of
/// one that is short is longer than may be read.
pub fn flow_is_read_back()
    ensures same { (l : Flow) → flow_taken (flow_item l) ≡ Some (flow_item l) }
    ensures apart { (l m : Flow) → flow_item l ≡ flow_item m → l ≡ m }
    ensures within_caps { (l : Flow) → IsShortFlow l → AllWithin IsCapped (flow_item l) }
{}

/// What a transfer is written as is read as this transfer, two transfers are written as two items, and no list, array or map of
/// one that is short is longer than may be read.
pub fn transfer_is_read_back()
    ensures same { (t : Transfer) → transfer_taken (transfer_item t) ≡ Some (transfer_item t) }
    ensures apart { (t u : Transfer) → transfer_item t ≡ transfer_item u → t ≡ u }
    ensures within_caps { (t : Transfer) → IsShortTransfer t →
        AllWithin IsCapped (transfer_item t) }
{}

/// What a disposition is written as is read as this disposition, two dispositions are written as two items, and no list, array or map of
/// one that is short is longer than may be read.
pub fn disposition_is_read_back()
    ensures same { (d : Disposition) → disposition_taken (disposition_item d)
        ≡ Some (disposition_item d) }
    ensures apart { (d e : Disposition) → disposition_item d ≡ disposition_item e → d ≡ e }
    ensures within_caps { (d : Disposition) → IsShortDisposition d →
        AllWithin IsCapped (disposition_item d) }
{}

/// What a detach is written as is read as this detach, two detaches are written as two items, and no list, array or map of
/// one that is short is longer than may be read.
pub fn detach_is_read_back()
    ensures same { (d : Detach) → detach_taken (detach_item d) ≡ Some (detach_item d) }
    ensures apart { (d e : Detach) → detach_item d ≡ detach_item e → d ≡ e }
    ensures within_caps { (d : Detach) → IsShortDetach d → AllWithin IsCapped (detach_item d) }
{}

/// What an end is written as is read as this end, two ends are written as two items, and no list, array or map of
/// one that is short is longer than may be read.
pub fn end_is_read_back()
    ensures same { (e : End) → end_taken (end_item e) ≡ Some (end_item e) }
    ensures apart { (e f : End) → end_item e ≡ end_item f → e ≡ f }
    ensures within_caps { (e : End) → IsShortEnd e → AllWithin IsCapped (end_item e) }
{}

/// What a close is written as is read as this close, two closes are written as two items, and no list, array or map of
/// one that is short is longer than may be read.
pub fn close_is_read_back()
    ensures same { (c : Close) → close_taken (close_item c) ≡ Some (close_item c) }
    ensures apart { (c d : Close) → close_item c ≡ close_item d → c ≡ d }
    ensures within_caps { (c : Close) → IsShortClose c → AllWithin IsCapped (close_item c) }
{}

/// What a performative is written as is read as this performative, two performatives are written as two items, and no list, array or map of
/// one that is short is longer than may be read.
pub fn performative_is_read_back()
    ensures same { (p : Performative) → performative_taken (performative_item p)
        ≡ Some (performative_item p) }
    ensures apart { (p q : Performative) → performative_item p ≡ performative_item q → p ≡ q }
    ensures within_caps { (p : Performative) → IsShort p →
        AllWithin IsCapped (performative_item p) }
{}
