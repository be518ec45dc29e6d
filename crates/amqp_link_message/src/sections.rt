//! The sections of a message, by their descriptors (part 3, 3.2.1 to 3.2.9).
ghost use Rattle.amqp_link_message.specs.CodeLaws.{header_coded, delivery_annotations_coded, message_annotations_coded};
ghost use Rattle.amqp_link_message.specs.CodeLaws.{properties_coded, application_properties_coded, data_coded};
ghost use Rattle.amqp_link_message.specs.CodeLaws.{amqp_sequence_coded, amqp_value_coded, footer_coded};

use crate::parts::Section;
use amqp_link_sections::{
    AmqpSequence, AmqpValue, ApplicationProperties, Data, DeliveryAnnotations, Footer, Header,
    MessageAnnotations, Properties,
};
use serde_amqp_de::Deserialize;

impl Section for Header {
    ghost code = { 0x70 };

    ghost coded = { header_coded };
}

impl Section for DeliveryAnnotations {
    ghost code = { 0x71 };

    ghost coded = { delivery_annotations_coded };
}

impl Section for MessageAnnotations {
    ghost code = { 0x72 };

    ghost coded = { message_annotations_coded };
}

impl Section for Properties {
    ghost code = { 0x73 };

    ghost coded = { properties_coded };
}

impl Section for ApplicationProperties {
    ghost code = { 0x74 };

    ghost coded = { application_properties_coded };
}

impl Section for Data {
    ghost code = { 0x75 };

    ghost coded = { data_coded };
}

impl<T: Deserialize + Drop> Section for AmqpSequence<T> {
    ghost code = { 0x76 };

    ghost coded = { amqp_sequence_coded T.take };
}

impl<T: Deserialize + Drop> Section for AmqpValue<T> {
    ghost code = { 0x77 };

    ghost coded = { amqp_value_coded T.take };
}

impl Section for Footer {
    ghost code = { 0x78 };

    ghost coded = { footer_coded };
}
