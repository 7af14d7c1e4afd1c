//! The law of the fields.

ghost use Rattle.std.specs.Prelude.{Bool};
ghost use Rattle.mac_types.specs.Numbers.{IsTid, IsSequenceNumber, sequence_control, is_sequence_control, block_ack_control, is_block_ack_control};
ghost use Rattle.mac_types.specs.Fields.{IsFrameFlags, flags_octet, are_flags, qos_control, IsQosControl, is_qos_control, block_ack_parameters, IsBlockAckParameters, are_block_ack_parameters, delba_parameters, IsDelbaParameters, are_delba_parameters};
ghost use Rattle.mac_types.specs.Spelled.{IsSpelling};

/// A field passes its test if and only if a value spells it, and then exactly one does: the second octet of Frame Control,
/// for each To DS; Sequence Control; QoS Control; the Block Ack Parameter Set; the DELBA Parameter Set; BAR Control and BA
/// Control.
pub fn fields_are_spelled()
    ensures flags { (to_ds : Bool) → IsSpelling 256 IsFrameFlags (flags_octet to_ds) (are_flags to_ds) }
    ensures sequence_controls { IsSpelling 65536 IsSequenceNumber sequence_control is_sequence_control }
    ensures qos_controls { IsSpelling 65536 IsQosControl qos_control is_qos_control }
    ensures block_ack_parameter_sets { IsSpelling 65536 IsBlockAckParameters block_ack_parameters are_block_ack_parameters }
    ensures delba_parameter_sets { IsSpelling 65536 IsDelbaParameters delba_parameters are_delba_parameters }
    ensures block_ack_controls { IsSpelling 65536 IsTid block_ack_control is_block_ack_control }
{}
