//! The names that come up in a walk.

/// How many plug-ins there are.
pub const PLUGINS: u64 = 12;
/// How many value lists there are.
pub const LISTS: u64 = 12;

/// The host whose lists the chain before the cache stops.
pub const STOPPED_HOST: &str = "mail";
/// The host whose lists the chain behind the cache writes to named writers first.
pub const NAMED_HOST: &str = "db";
/// The writers that it names; nobody registers as the second.
pub const NAMED_WRITER: &str = "csv";

pub const NOBODY: &str = "mongodb";

/// The types, as a text of types.db(5).
pub const TYPES: &str = "gauge value:GAUGE:U:U\nif_octets rx:DERIVE:0:U, tx:COUNTER:0:U\n";
/// The type of one source.
pub const GAUGE: &str = "gauge";
/// The type of two.
pub const OCTETS: &str = "if_octets";

/// The plug-in of a number. The first three names are the daemon's own.
pub fn plugin_name(number: u64) -> &'static str {
    match number {
        0 => "threshold",
        1 => "unixsock",
        2 => "network",
        3 => NAMED_WRITER,
        4 => "exec",
        5 => "log",
        6 => "perl",
        7 => "python",
        8 => "rrdtool",
        9 => "statsd",
        10 => "write_http",
        _ => "write_log",
    }
}

/// One of three hosts.
pub fn host_name(number: u64) -> &'static str {
    match number {
        0 => NAMED_HOST,
        1 => STOPPED_HOST,
        _ => "web",
    }
}

/// One of two types.
pub fn type_name(number: u64) -> &'static str {
    match number {
        0 => GAUGE,
        _ => OCTETS,
    }
}
