//! Data sets, values, value lists, notifications and requests.
use crate::{Identifier, Memory, Names, Sources, Text, TryCopy, Values};
use std::alloc::Global;

/// The kind of a data source, as in types.db(5).
#[derive(Clone, Copy, Debug, PartialEq, Eq)]
pub enum DsType {
    Counter,
    Gauge,
    Derive,
    Absolute,
}

/// A data source: its name, its kind, and the least and greatest rate, in millionths.
#[derive(Drop)]
pub struct DataSource {
    pub name: Text,
    pub kind: DsType,
    pub min: Option<i128>,
    pub max: Option<i128>,
}

/// A type of types.db(5): its name and its data sources.
#[derive(Drop)]
pub struct DataSet {
    pub name: Text,
    pub sources: Sources,
}

/// A value of one data source. A gauge is in millionths, or unknown.
#[derive(Clone, Copy, Debug, PartialEq, Eq)]
pub enum Value {
    Counter(u64),
    Gauge(Option<i128>),
    Derive(i64),
    Absolute(u64),
}

/// A rate of `num / den` millionths per second, for a gauge `num / den` millionths, or an unknown
/// one. With a `den` of 0 it is read as unknown.
#[derive(Clone, Copy, Debug)]
pub enum Rate {
    Known { num: i128, den: u64 },
    Unknown,
}

/// The values of one identifier at a time. The time and the interval are in units of 2^-30 s.
#[derive(Drop)]
pub struct ValueList {
    pub id: Identifier,
    pub time: u64,
    pub interval: u64,
    pub values: Values,
}

/// How bad a notification is.
#[derive(Clone, Copy, Debug, PartialEq, Eq)]
pub enum Severity {
    Failure,
    Warning,
    Okay,
}

/// A notification, as in collectd-unixsock(5), PUTNOTIF. The time is in units of 2^-30 s.
#[derive(Drop)]
pub struct Notification {
    pub severity: Severity,
    pub time: u64,
    pub host: Text,
    pub plugin: Text,
    pub plugin_instance: Text,
    pub type_name: Text,
    pub type_instance: Text,
    pub message: Text,
}

/// A request of FLUSH, as in collectd-unixsock(5): the plugins and the names that it is for (none
/// for all), and the timeout in 2^-30 s.
#[derive(Drop)]
pub struct FlushRequest {
    pub plugins: Names,
    pub names: Names,
    pub timeout: Option<u64>,
}

/// What became of a list that was offered to the write queue.
#[derive(Clone, Copy, Debug, PartialEq, Eq)]
pub enum Offered {
    Kept,
    Dropped,
}

impl TryCopy for Offered {
    fn copy(&self, _alloc: Global) -> Result<Offered, Memory> {
        Ok(*self)
    }
}

impl TryCopy for Value {
    fn copy(&self, _alloc: Global) -> Result<Value, Memory> {
        Ok(*self)
    }
}

impl TryCopy for Rate {
    fn copy(&self, _alloc: Global) -> Result<Rate, Memory> {
        Ok(*self)
    }
}

impl TryCopy for DataSource {
    fn copy(&self, alloc: Global) -> Result<DataSource, Memory> {
        let name = self.name.copy(alloc)?;
        Ok(DataSource {
            name,
            kind: self.kind,
            min: self.min,
            max: self.max,
        })
    }
}

impl TryCopy for DataSet {
    fn copy(&self, alloc: Global) -> Result<DataSet, Memory> {
        let name = self.name.copy(alloc)?;
        let sources = self.sources.copy(alloc)?;
        Ok(DataSet { name, sources })
    }
}

impl TryCopy for FlushRequest {
    fn copy(&self, alloc: Global) -> Result<FlushRequest, Memory> {
        let plugins = self.plugins.copy(alloc)?;
        let names = self.names.copy(alloc)?;
        Ok(FlushRequest {
            plugins,
            names,
            timeout: self.timeout,
        })
    }
}

impl TryCopy for ValueList {
    fn copy(&self, alloc: Global) -> Result<ValueList, Memory> {
        let id = self.id.copy(alloc)?;
        let values = self.values.copy(alloc)?;
        Ok(ValueList {
            id,
            time: self.time,
            interval: self.interval,
            values,
        })
    }
}

impl TryCopy for Notification {
    fn copy(&self, alloc: Global) -> Result<Notification, Memory> {
        let host = self.host.copy(alloc)?;
        let plugin = self.plugin.copy(alloc)?;
        let plugin_instance = self.plugin_instance.copy(alloc)?;
        let type_name = self.type_name.copy(alloc)?;
        let type_instance = self.type_instance.copy(alloc)?;
        let message = self.message.copy(alloc)?;
        Ok(Notification {
            severity: self.severity,
            time: self.time,
            host,
            plugin,
            plugin_instance,
            type_name,
            type_instance,
            message,
        })
    }
}
