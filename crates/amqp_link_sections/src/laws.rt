//! Laws of what sections are written as and read as. A function here does nothing: its contract is the law.
ghost use Rattle.std.specs.Prelude.{◌≡◌, List, Some};
ghost use Rattle.serde_amqp_item.specs.Item.{Item};
ghost use Rattle.amqp_link_sections.specs.Header.{header_item, header_taken};
ghost use Rattle.amqp_link_sections.specs.Annotations.{delivery_annotations_item, delivery_annotations_taken};
ghost use Rattle.amqp_link_sections.specs.Annotations.{message_annotations_item, message_annotations_taken};
ghost use Rattle.amqp_link_sections.specs.Annotations.{application_properties_item, application_properties_taken};
ghost use Rattle.amqp_link_sections.specs.Annotations.{footer_item, footer_taken};
ghost use Rattle.amqp_link_sections.specs.MessageId.{message_id_item, message_id_taken};
ghost use Rattle.amqp_link_sections.specs.Properties.{properties_item, properties_taken};
ghost use Rattle.amqp_link_sections.specs.Body.{data_item, data_taken, amqp_sequence_item, amqp_sequence_taken};
ghost use Rattle.amqp_link_sections.specs.Body.{amqp_value_item, amqp_value_taken};
ghost use Rattle.amqp_link_sections.specs.Section.{section_code, section_of, section_said};
ghost use Rattle.amqp_link_sections.specs.declared.header.Header.{Header};
ghost use Rattle.amqp_link_sections.specs.declared.delivery_annotations.DeliveryAnnotations.{DeliveryAnnotations};
ghost use Rattle.amqp_link_sections.specs.declared.message_annotations.MessageAnnotations.{MessageAnnotations};
ghost use Rattle.amqp_link_sections.specs.declared.message_id.MessageId.{MessageId};
ghost use Rattle.amqp_link_sections.specs.declared.properties.Properties.{Properties};
ghost use Rattle.amqp_link_sections.specs.declared.application_properties.ApplicationProperties.{ApplicationProperties};
ghost use Rattle.amqp_link_sections.specs.declared.body.Data.{Data};
ghost use Rattle.amqp_link_sections.specs.declared.body.AmqpValue.{AmqpValue};
ghost use Rattle.amqp_link_sections.specs.declared.footer.Footer.{Footer};
ghost use Rattle.amqp_link_sections.specs.declared.section.Section.{Section};
ghost use Rattle.amqp_link_sections.specs.declared.section.Section.TheVariants as is;

use serde_amqp_round_trip::Faithful;

/// What a header is written as is read as it, and two headers are written as two items. What is read as it says by its
/// descriptor that it is that section.
pub fn header_is_its_item()
    ensures read_back { (x : Header) → header_taken (header_item x) ≡ Some (header_item x) }
    ensures told_apart { (x y : Header) → header_item x ≡ header_item y → x ≡ y }
    ensures said { (x u : Item) → header_taken x ≡ Some u → section_said x ≡ Some is.Header }
{}

/// What delivery annotations are written as is read as them, and two values of delivery annotations are written as two
/// items. What is read as them says by its descriptor that it is that section.
pub fn delivery_annotations_is_its_item()
    ensures read_back { (x : DeliveryAnnotations) → delivery_annotations_taken (delivery_annotations_item x)
        ≡ Some (delivery_annotations_item x) }
    ensures told_apart { (x y : DeliveryAnnotations) → delivery_annotations_item x ≡ delivery_annotations_item y
        → x ≡ y }
    ensures said { (x u : Item) → delivery_annotations_taken x ≡ Some u
        → section_said x ≡ Some is.DeliveryAnnotations }
{}

/// What message annotations are written as is read as them, and two values of message annotations are written as two
/// items. What is read as them says by its descriptor that it is that section.
pub fn message_annotations_is_its_item()
    ensures read_back { (x : MessageAnnotations) → message_annotations_taken (message_annotations_item x)
        ≡ Some (message_annotations_item x) }
    ensures told_apart { (x y : MessageAnnotations) → message_annotations_item x ≡ message_annotations_item y
        → x ≡ y }
    ensures said { (x u : Item) → message_annotations_taken x ≡ Some u →
        section_said x ≡ Some is.MessageAnnotations }
{}

/// What a message-id is written as is read as it, and two message-ids are written as two items.
pub fn message_id_is_its_item()
    ensures read_back { (x : MessageId) →
        message_id_taken (message_id_item x) ≡ Some (message_id_item x) }
    ensures told_apart { (x y : MessageId) → message_id_item x ≡ message_id_item y → x ≡ y }
{}

/// What properties are written as is read as them, and two values of properties are written as two items. What is read
/// as them says by its descriptor that it is that section.
pub fn properties_is_its_item()
    ensures read_back { (x : Properties) →
        properties_taken (properties_item x) ≡ Some (properties_item x) }
    ensures told_apart { (x y : Properties) → properties_item x ≡ properties_item y → x ≡ y }
    ensures said { (x u : Item) → properties_taken x ≡ Some u →
        section_said x ≡ Some is.Properties }
{}

/// What application properties are written as is read as them, and two values of application properties are written as
/// two items. What is read as them says by its descriptor that it is that section.
pub fn application_properties_is_its_item()
    ensures read_back { (x : ApplicationProperties) → application_properties_taken (application_properties_item x)
        ≡ Some (application_properties_item x) }
    ensures told_apart { (x y : ApplicationProperties) → application_properties_item x ≡ application_properties_item y
        → x ≡ y }
    ensures said { (x u : Item) → application_properties_taken x ≡ Some u
        → section_said x ≡ Some is.ApplicationProperties }
{}

/// What data are written as is read as them, and two values of data are written as two items. What is read as them says
/// by its descriptor that it is that section.
pub fn data_is_its_item()
    ensures read_back { (x : Data) → data_taken (data_item x) ≡ Some (data_item x) }
    ensures told_apart { (x y : Data) → data_item x ≡ data_item y → x ≡ y }
    ensures said { (x u : Item) → data_taken x ≡ Some u → section_said x ≡ Some is.Data }
{}

/// What a sequence is written as is read as it, and two sequences are written as two items. What is read as it says by
/// its descriptor that it is that section.
pub fn amqp_sequence_is_its_item<T: Faithful>()
    ensures read_back { (xs : List T) → amqp_sequence_taken T.take (amqp_sequence_item T.Deserialize.item xs)
        ≡ Some (amqp_sequence_item T.Deserialize.item xs) }
    ensures told_apart { (xs ys : List T)
        → amqp_sequence_item T.Deserialize.item xs ≡ amqp_sequence_item T.Deserialize.item ys
        → xs ≡ ys }
    ensures said { (x u : Item) → amqp_sequence_taken T.take x ≡ Some u →
        section_said x ≡ Some is.AmqpSequence }
{}

/// What a value is written as is read as it, and two values are written as two items. What is read as it says by its
/// descriptor that it is that section.
pub fn amqp_value_is_its_item<T: Faithful>()
    ensures read_back { (v : AmqpValue T) → amqp_value_taken T.take (amqp_value_item T.Deserialize.item v)
        ≡ Some (amqp_value_item T.Deserialize.item v) }
    ensures told_apart { (v w : AmqpValue T)
        → amqp_value_item T.Deserialize.item v ≡ amqp_value_item T.Deserialize.item w
        → v ≡ w }
    ensures said { (x u : Item) → amqp_value_taken T.take x ≡ Some u →
        section_said x ≡ Some is.AmqpValue }
{}

/// What a footer is written as is read as it, and two footers are written as two items. What is read as it says by its
/// descriptor that it is that section.
pub fn footer_is_its_item()
    ensures read_back { (x : Footer) → footer_taken (footer_item x) ≡ Some (footer_item x) }
    ensures told_apart { (x y : Footer) → footer_item x ≡ footer_item y → x ≡ y }
    ensures said { (x u : Item) → footer_taken x ≡ Some u → section_said x ≡ Some is.Footer }
{}

/// The code of a section says which it is.
pub fn code_is_its_section()
    ensures { (s : Section) → section_of (section_code s) ≡ Some s }
{}
