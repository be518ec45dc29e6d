//! Laws of what becomes of an endpoint's links. A function here does nothing: its contract is the law.
ghost use Rattle.std.specs.Prelude.{List};
ghost use Rattle.amqp_endpoint_linking.specs.Ending.{Finishes, Leaves};
ghost use Rattle.amqp_endpoint_linking.specs.GivingBack.{AllGivenBack, GoOn};
ghost use Rattle.amqp_endpoint_linking.specs.Linking.{Link, Links, Talk};

/// Links that are given back go on by steps of their own, in which each comes to rest or is closed: none is entered,
/// held by a session or changed. So what holds of all histories of links holds of what calls do here (part 2, 2.6.1,
/// 2.6.6).
pub fn links_given_back_go_on()
    ensures back { (old new : Links) (left : List Link) → AllGivenBack old left new → GoOn old new }
    ensures left { (old new : Talk) (links links_new : Links) → Leaves old links new links_new →
        GoOn links links_new }
    ensures finished { (old new : Talk) (links links_new : Links) → Finishes old links new links_new →
        GoOn links links_new }
{}
