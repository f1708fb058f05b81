//! Descriptions of the server, its sinks, inputs and clients.

use px_tag::{PropList, RawMap, RawSpec, RawVolume};
use px_types::Text;

/// The server: the default sink's spec, name and map, and the default source's name, `None` for the null string. The map is
/// sent from version 15 on.
#[derive(Drop)]
pub struct ServerInfo {
    pub spec: RawSpec,
    pub name: Text,
    pub source: Option<Text>,
    pub map: RawMap,
}

/// A sink; `volume` is its reference volume.
#[derive(Drop)]
pub struct SinkInfo {
    pub index: u32,
    pub name: Text,
    pub spec: RawSpec,
    pub map: RawMap,
    pub volume: RawVolume,
    pub mute: bool,
}

/// A sink input; the name is `None` for the null string.
#[derive(Drop)]
pub struct InputInfo {
    pub index: u32,
    pub name: Option<Text>,
    pub client: u32,
    pub sink: u32,
    pub spec: RawSpec,
    pub map: RawMap,
    pub volume: RawVolume,
    pub mute: bool,
    pub list: PropList,
}

/// A client; the name is `None` for the null string.
#[derive(Drop)]
pub struct ClientInfo {
    pub index: u32,
    pub name: Option<Text>,
    pub list: PropList,
}
