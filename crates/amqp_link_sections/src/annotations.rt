//! Annotations (part 3, 3.2.10).
use serde_amqp_values::{OrderedMap, RawValue};

/// Values of any type by keys of any type (part 3, 3.2.10). The standard has symbols and ulongs as keys; others are
/// read and written too.
pub type Annotations = OrderedMap<RawValue, RawValue>;
