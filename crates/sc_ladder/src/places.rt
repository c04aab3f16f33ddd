//! Places and sessions as text.

use sc_value::{AppId, NoMemory, Place, Text, write_u64};

/// Appends a place as a script writes it.
pub fn write_place(place: Place, out: &mut Text) -> Result<(), NoMemory> {
    match place {
        Place::Back(number) => {
            out.append(b"c")?;
            write_u64(number, out)
        }
        Place::To(ip, port) => {
            write_ip(ip, out)?;
            out.append(b":")?;
            write_u64(u64::from(port), out)
        }
    }
}

fn write_ip(ip: [u8; 4], out: &mut Text) -> Result<(), NoMemory> {
    write_u64(u64::from(ip[0]), out)?;
    out.append(b".")?;
    write_u64(u64::from(ip[1]), out)?;
    out.append(b".")?;
    write_u64(u64::from(ip[2]), out)?;
    out.append(b".")?;
    write_u64(u64::from(ip[3]), out)
}

/// Appends a session's host and serial, and its application's name.
pub fn write_session(app: AppId, names: &[Text], out: &mut Text) -> Result<(), NoMemory> {
    write_u64(u64::from(app.host), out)?;
    out.append(b"-")?;
    write_u64(app.serial, out)?;
    match names.get(app.host as usize) {
        Some(name) => {
            out.append(b" ")?;
            out.append(name.as_bytes())
        }
        None => Ok(()),
    }
}
