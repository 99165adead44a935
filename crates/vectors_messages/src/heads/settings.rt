//! Settings.
use http_types::{HoldSize, KeepAlive, NoMemory, ServiceConfigBuilder};
use vectors::{Case, Report};

/// `hold-size BYTES`: the hold size of a config that is set to this one, or that it is refused.
pub fn hold_size(case: &Case<'_>, found: &mut Report) -> Result<bool, NoMemory> {
    let Some(size) = case.number(0) else {
        return Ok(false);
    };
    match set_size(size) {
        Ok(size) => found.put_decimal(size as u64),
        Err(HoldSize) => found.put_text("refused"),
    }
    Ok(true)
}

fn set_size(size: usize) -> Result<usize, HoldSize> {
    let config = ServiceConfigBuilder::new().h1_hold_size(size)?.build();
    Ok(config.h1_hold_size())
}

/// `keep-alive default`, `keep-alive MILLISECONDS`, `keep-alive some MILLISECONDS`, `keep-alive none`: the setting that it
/// makes, and how long a connection is kept by it.
pub fn keep_alive(case: &Case<'_>, found: &mut Report) -> Result<bool, NoMemory> {
    let Some(setting) = setting_of(case) else {
        return Ok(false);
    };
    match setting {
        KeepAlive::Timeout(time) => {
            found.put_text("timeout ");
            found.put_decimal(time);
        }
        KeepAlive::Os => found.put_text("os"),
        KeepAlive::Disabled => found.put_text("disabled"),
    }
    match setting.duration() {
        Some(time) => {
            found.put_text(" for ");
            found.put_decimal(time);
        }
        None => found.put_text(" for no time"),
    }
    Ok(true)
}

fn setting_of(case: &Case<'_>) -> Option<KeepAlive> {
    match case.argument(0) {
        b"default" => Some(KeepAlive::default()),
        b"none" => Some(KeepAlive::from(None)),
        b"some" => Some(KeepAlive::from(Some(case.number(1)? as u64))),
        _ => Some(KeepAlive::from(case.number(0)? as u64)),
    }
}
