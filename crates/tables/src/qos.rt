// A number as a quality of service: `qos` of mqttbytes/mod.rs, with the refusal that its callers give.
ghost use Rattle.std.specs.Prelude.{◌≡◌};
ghost use Rattle.tables.specs.Qos.{told_got_qos, qos_of};

use records::error::Error;
use records::qos::QoS;

// The quality of service of a number, or refusal 11 with it.
pub fn qos(num: u8) -> Result<QoS, Error>
    ensures { told_got_qos result ≡ qos_of num }
{
    match num {
        0 => Ok(QoS::AtMostOnce),
        1 => Ok(QoS::AtLeastOnce),
        2 => Ok(QoS::ExactlyOnce),
        3..=255 => Err(Error::InvalidQoS(num)),
    }
}
