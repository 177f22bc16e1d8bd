//! The numbers of the protocol: the kinds of parts, the codes of values and severities.

/// The kind of a part with the host, a text.
pub const HOST: u16 = 0x0000;

/// The kind of a part with the time in seconds.
pub const TIME: u16 = 0x0001;

/// The kind of a part with the plugin, a text.
pub const PLUGIN: u16 = 0x0002;

/// The kind of a part with the plugin instance, a text.
pub const PLUGIN_INSTANCE: u16 = 0x0003;

/// The kind of a part with the type, a text.
pub const TYPE: u16 = 0x0004;

/// The kind of a part with the type instance, a text.
pub const TYPE_INSTANCE: u16 = 0x0005;

/// The kind of a part with values, which makes a value list.
pub const VALUES: u16 = 0x0006;

/// The kind of a part with the interval in seconds.
pub const INTERVAL: u16 = 0x0007;

/// The kind of a part with the time in 2^-30 s.
pub const TIME_HIGH_RESOLUTION: u16 = 0x0008;

/// The kind of a part with the interval in 2^-30 s.
pub const INTERVAL_HIGH_RESOLUTION: u16 = 0x0009;

/// The kind of a part with a message, a text, which makes a notification.
pub const MESSAGE: u16 = 0x0100;

/// The kind of a part with the severity of a notification.
pub const SEVERITY: u16 = 0x0101;

/// The kind of a part that is encrypted. It ends the packet.
pub const ENCRYPTION: u16 = 0x0210;

/// The code of a counter, an unsigned number.
pub const COUNTER_CODE: u8 = 0;

/// The code of a gauge, a floating-point number, which isn't read.
pub const GAUGE_CODE: u8 = 1;

/// The code of a derive, a signed number.
pub const DERIVE_CODE: u8 = 2;

/// The code of an absolute, an unsigned number.
pub const ABSOLUTE_CODE: u8 = 3;

/// The number of the severity FAILURE.
pub const FAILURE_CODE: u64 = 1;

/// The number of the severity WARNING.
pub const WARNING_CODE: u64 = 2;

/// The number of the severity OKAY.
pub const OKAY_CODE: u64 = 4;

/// Times and intervals in seconds are below this number, so that they fit 64 bits in 2^-30 s.
pub const SECONDS_LIMIT: u64 = 1 << 34;
