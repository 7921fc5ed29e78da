// An element's class is its number here; class 0 is no element.
pub const ALERT: usize = 1;

pub const INFO: usize = 2;

pub const RESOURCE: usize = 3;

pub const AREA: usize = 4;

pub const EVENT_CODE: usize = 5;

pub const PARAMETER: usize = 6;

pub const GEOCODE: usize = 7;

pub const IDENTIFIER: usize = 8;

pub const SENDER: usize = 9;

pub const SENT: usize = 10;

pub const STATUS: usize = 11;

pub const MSG_TYPE: usize = 12;

pub const SOURCE: usize = 13;

pub const SCOPE: usize = 14;

pub const RESTRICTION: usize = 15;

pub const ADDRESSES: usize = 16;

pub const CODE: usize = 17;

pub const NOTE: usize = 18;

pub const REFERENCES: usize = 19;

pub const INCIDENTS: usize = 20;

pub const LANGUAGE: usize = 21;

pub const CATEGORY: usize = 22;

pub const EVENT: usize = 23;

pub const RESPONSE_TYPE: usize = 24;

pub const URGENCY: usize = 25;

pub const SEVERITY: usize = 26;

pub const CERTAINTY: usize = 27;

pub const AUDIENCE: usize = 28;

pub const EFFECTIVE: usize = 29;

pub const ONSET: usize = 30;

pub const EXPIRES: usize = 31;

pub const SENDER_NAME: usize = 32;

pub const HEADLINE: usize = 33;

pub const DESCRIPTION: usize = 34;

pub const INSTRUCTION: usize = 35;

pub const WEB: usize = 36;

pub const CONTACT: usize = 37;

pub const RESOURCE_DESC: usize = 38;

pub const MIME_TYPE: usize = 39;

pub const SIZE: usize = 40;

pub const URI: usize = 41;

pub const DEREF_URI: usize = 42;

pub const DIGEST: usize = 43;

pub const AREA_DESC: usize = 44;

pub const POLYGON: usize = 45;

pub const CIRCLE: usize = 46;

pub const ALTITUDE: usize = 47;

pub const CEILING: usize = 48;

pub const VALUE_NAME: usize = 49;

pub const VALUE: usize = 50;
